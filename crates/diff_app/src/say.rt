//! The text of a refusal, printed.
ghost use Rattle.std.specs.Prelude.{◌≡◌, IsTrue};
ghost use Rattle.spec_run.specs.Statuses.{Prints};
ghost use Rattle.spec_tools.specs.DiffStatuses.{usage_text, cubes_text};
ghost use Rattle.diff_app.specs.Refused.{text_of, IsSilent};

use crate::refusal::Refusal;
use edge_io::{Failed, Sink};
use itoa::Buffer;
use switch_input::refusals::{say_input_refusal, say_out_of_memory, say_pieces};
use table_diff::CUBE_LIMIT;

// Prints which words the program takes.
fn say_usage<K: Sink>(say: &mut K)
    ensures { IsTrue K.tells → Prints K.needs_memory (K.faults say.old) (K.faults say.new)
        (K.written say.old) (K.written say.new) usage_text }
{
    say_pieces(say, &["usage: megadiff [--brief] OLD NEW PORT...\n"]);
}

// Prints that there are more cubes than are looked into.
fn say_too_many<K: Sink>(say: &mut K)
    ensures { IsTrue K.tells → Prints K.needs_memory (K.faults say.old) (K.faults say.new)
        (K.written say.old) (K.written say.new) cubes_text }
{
    let mut digits = Buffer::new();
    say_pieces(say, &["limit: cubes ", digits.format(CUBE_LIMIT), "\n"]);
}

/// Prints why no difference is told. Nothing is printed where printing failed.
pub fn say_refusal<K: Sink>(say: &mut K, refusal: &Refusal<'_>)
    ensures text { IsTrue K.tells → Prints K.needs_memory (K.faults say.old) (K.faults say.new) (K.written say.old)
        (K.written say.new) (text_of refusal.now) }
    ensures silent { IsSilent refusal.now → say.new ≡ say.old }
{
    match refusal {
        Refusal::Usage => say_usage(say),
        Refusal::Reading(refusal) => say_input_refusal(say, refusal),
        Refusal::TooManyCubes => say_too_many(say),
        Refusal::Printing(Failed::Fault) => {}
        Refusal::Printing(Failed::OutOfMemory) => say_out_of_memory(say),
    }
}

//! The text of a refusal, printed.
ghost use Rattle.std.specs.Prelude.{◌≡◌, IsTrue};
ghost use Rattle.spec_run.specs.Statuses.{Prints};
ghost use Rattle.switch_input.specs.Pieces.{FailsAtMostOnce};
ghost use Rattle.switch_app.specs.Refused.{write_text, output_text, text_of, IsSilent};

use crate::refusal::Refusal;
use edge_io::{Failed, Sink};
use switch_input::refusals::{say_input_refusal, say_out_of_memory, say_write_fault};
use switch_output::{OutputRefusal, WriteRefusal};

fn say_write_refusal<K: Sink>(say: &mut K, refusal: &WriteRefusal)
    ensures text { IsTrue K.tells → Prints K.needs_memory (K.faults say.old) (K.faults say.new) (K.written say.old)
        (K.written say.new) (write_text refusal.now) }
    ensures once { FailsAtMostOnce (K.faults say.old) (K.faults say.new) }
{
    match refusal {
        WriteRefusal::WriteFault { name } => say_write_fault(say, name.as_str()),
        WriteRefusal::OutOfMemory => say_out_of_memory(say),
    }
}

// Nothing more is printed where printing failed.
fn say_output_refusal<K: Sink>(say: &mut K, refusal: &OutputRefusal)
    ensures text { IsTrue K.tells → Prints K.needs_memory (K.faults say.old) (K.faults say.new) (K.written say.old)
        (K.written say.new) (output_text refusal.now) }
    ensures once { FailsAtMostOnce (K.faults say.old) (K.faults say.new) }
    ensures silent { refusal.now ≡ OutputRefusal.Summary Failed.Fault → say.new ≡ say.old }
{
    match refusal {
        OutputRefusal::Files(refusal) => say_write_refusal(say, refusal),
        OutputRefusal::Summary(Failed::Fault) => {}
        OutputRefusal::Summary(Failed::OutOfMemory) => say_out_of_memory(say),
    }
}

/// Prints why a run was refused. Nothing is printed where printing failed.
pub fn say_refusal<K: Sink>(say: &mut K, refusal: &Refusal<'_>)
    ensures text { IsTrue K.tells → Prints K.needs_memory (K.faults say.old) (K.faults say.new) (K.written say.old)
        (K.written say.new) (text_of refusal.now) }
    ensures once { FailsAtMostOnce (K.faults say.old) (K.faults say.new) }
    ensures silent { IsSilent refusal.now → say.new ≡ say.old }
{
    match refusal {
        Refusal::Reading(refusal) => say_input_refusal(say, refusal),
        Refusal::Output(refusal) => say_output_refusal(say, refusal),
    }
}

//! The text of a refusal, printed.
ghost use Rattle.std.specs.Prelude.{◌≡◌, IsTrue};
ghost use Rattle.spec_run.specs.Statuses.{Prints};
ghost use Rattle.spec_tools.specs.TraceStatuses.{usage_text, no_port_text};
ghost use Rattle.trace_app.specs.Refused.{text_of, IsSilent};

use crate::refusal::Refusal;
use edge_io::{Failed, Sink};
use itoa::Buffer;
use switch_input::refusals::{say_input_refusal, say_out_of_memory, say_pieces};

// Prints which words the program takes.
fn say_usage<K: Sink>(say: &mut K)
    ensures { IsTrue K.tells → Prints K.needs_memory (K.faults say.old) (K.faults say.new)
        (K.written say.old) (K.written say.new) usage_text }
{
    say_pieces(say, &["usage: megatrace EDITS FLOW PORTS\n"]);
}

fn say_no_port<K: Sink>(say: &mut K, port: u16)
    ensures { IsTrue K.tells → Prints K.needs_memory (K.faults say.old) (K.faults say.new)
        (K.written say.old) (K.written say.new) (no_port_text port) }
{
    let mut digits = Buffer::new();
    say_pieces(say, &["no such port: ", digits.format(port), "\n"]);
}

/// Prints why there is no trace. Nothing is printed where printing failed.
pub fn say_refusal<K: Sink>(say: &mut K, refusal: &Refusal<'_>)
    ensures text { IsTrue K.tells → Prints K.needs_memory (K.faults say.old) (K.faults say.new) (K.written say.old)
        (K.written say.new) (text_of refusal.now) }
    ensures silent { IsSilent refusal.now → say.new ≡ say.old }
{
    match refusal {
        Refusal::Usage => say_usage(say),
        Refusal::Reading(refusal) => say_input_refusal(say, refusal),
        Refusal::NoPort { port } => say_no_port(say, *port),
        Refusal::Printing(Failed::Fault) => {}
        Refusal::Printing(Failed::OutOfMemory) => say_out_of_memory(say),
    }
}

//! The exit status of a refusal, as `spec_tools` has it.
ghost use Rattle.std.specs.Prelude.{◌≡◌};
ghost use Rattle.trace_app.specs.Refused.{status_of};

use crate::refusal::Refusal;
use edge_io::Failed;
use switch_input::refusals::{OUT_OF_MEMORY, USAGE, WRITE_FAULT, input_status};

/// The port of the flow is none of the switch.
pub const NO_PORT: u8 = 10;

/// The exit status of a refusal.
pub fn status_of(refusal: &Refusal<'_>) -> u8
    ensures { result ≡ status_of refusal.now }
{
    match refusal {
        Refusal::Usage => USAGE,
        Refusal::Reading(refusal) => input_status(refusal),
        Refusal::NoPort { .. } => NO_PORT,
        Refusal::Printing(Failed::Fault) => WRITE_FAULT,
        Refusal::Printing(Failed::OutOfMemory) => OUT_OF_MEMORY,
    }
}

//! The exit status of a refusal, as `spec_tools::run` has it.
ghost use Rattle.std.specs.Prelude.{◌≡◌};
ghost use Rattle.diff_app.specs.Refused.{status_of};

use crate::refusal::Refusal;
use edge_io::Failed;
use switch_input::refusals::{LIMIT, OUT_OF_MEMORY, USAGE, WRITE_FAULT, input_status};

/// Some packet is treated differently.
pub const DIFFER: u8 = 1;

/// The exit status of a refusal.
pub fn status_of(refusal: &Refusal<'_>) -> u8
    ensures { result ≡ status_of refusal.now }
{
    match refusal {
        Refusal::Usage => USAGE,
        Refusal::Reading(refusal) => input_status(refusal),
        Refusal::TooManyCubes => LIMIT,
        Refusal::Printing(Failed::Fault) => WRITE_FAULT,
        Refusal::Printing(Failed::OutOfMemory) => OUT_OF_MEMORY,
    }
}

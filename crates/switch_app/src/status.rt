//! The exit status of a refusal, as `spec_run` has it.
ghost use Rattle.std.specs.Prelude.{◌≡◌};
ghost use Rattle.switch_app.specs.Refused.{write_status, output_status, status_of};

use crate::refusal::Refusal;
use edge_io::Failed;
use switch_input::refusals::{OUT_OF_MEMORY, WRITE_FAULT, input_status};
use switch_output::{OutputRefusal, WriteRefusal};

fn write_status(refusal: &WriteRefusal) -> u8
    ensures { result ≡ write_status refusal.now }
{
    match refusal {
        WriteRefusal::WriteFault { .. } => WRITE_FAULT,
        WriteRefusal::OutOfMemory => OUT_OF_MEMORY,
    }
}

fn output_status(refusal: &OutputRefusal) -> u8
    ensures { result ≡ output_status refusal.now }
{
    match refusal {
        OutputRefusal::Files(refusal) => write_status(refusal),
        OutputRefusal::Summary(Failed::Fault) => WRITE_FAULT,
        OutputRefusal::Summary(Failed::OutOfMemory) => OUT_OF_MEMORY,
    }
}

/// The exit status of a refusal.
pub fn status_of(refusal: &Refusal<'_>) -> u8
    ensures { result ≡ status_of refusal.now }
{
    match refusal {
        Refusal::Reading(refusal) => input_status(refusal),
        Refusal::Output(refusal) => output_status(refusal),
    }
}

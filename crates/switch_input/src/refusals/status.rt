//! The exit statuses, as `spec_run` has them.
ghost use Rattle.std.specs.Prelude.{◌≡◌};
ghost use Rattle.switch_input.specs.Texts.{input_status};

use crate::refusals::refusal::{InputFault, InputRefusal};

/// All was done.
pub const DONE: u8 = 0;

/// The words are none that the program takes.
pub const USAGE: u8 = 2;

/// The file of edits, the steps file or the mirrors file is wrong.
pub const TEXT: u8 = 3;

/// A trace is no capture file that is read.
pub const TRACE: u8 = 4;

/// A file was not read.
pub const READ_FAULT: u8 = 5;

/// A file was not written.
pub const WRITE_FAULT: u8 = 6;

/// A quantity is above its limit.
pub const LIMIT: u8 = 7;

/// Memory ran out.
pub const OUT_OF_MEMORY: u8 = 8;

/// The exit status where the words and the files were not read.
pub fn input_status(refusal: &InputRefusal<'_>) -> u8
    ensures { result ≡ input_status refusal.now }
{
    match refusal {
        InputRefusal::Input(InputFault::Usage) => USAGE,
        InputRefusal::Input(InputFault::Text { .. }) => TEXT,
        InputRefusal::Input(InputFault::Trace { .. }) => TRACE,
        InputRefusal::Input(InputFault::Limit(_)) => LIMIT,
        InputRefusal::ReadFault { .. } => READ_FAULT,
        InputRefusal::OutOfMemory => OUT_OF_MEMORY,
    }
}

ghost use Rattle.std.specs.Prelude.{◌≡◌};
ghost use Rattle.switch_input.specs.declared.refusals.refusal.InputRefusal.TheVariants.{OutOfMemory};

use spec_input::FileFault;
use spec_pcap::PcapFault;
use spec_run::Quantity;
use std::alloc::{AllocError, AllocFailed};

/// What is wrong with an input. Names are those of the words.
#[derive(Clone, Copy)]
pub enum InputFault<'a> {
    /// The words are none that the program takes.
    Usage,
    /// The file of edits, the steps file or the mirrors file has a line that is wrong.
    Text { name: &'a str, fault: FileFault },
    /// A trace is no capture file that is read.
    Trace { name: &'a str, fault: PcapFault },
    /// A quantity is above its limit.
    Limit(Quantity),
}

/// Why the words and the files were not read. Names are those of the words.
#[derive(Clone, Copy)]
pub enum InputRefusal<'a> {
    /// The words or a file are refused.
    Input(InputFault<'a>),
    /// The shelf failed in reading a file.
    ReadFault { name: &'a str },
    OutOfMemory,
}

impl From<AllocError> for InputRefusal<'_> {
    ghost from_gives = { λ _ e. e ≡ OutOfMemory };

    fn from(_: AllocError) -> Self {
        InputRefusal::OutOfMemory
    }
}

impl<T: Drop> From<AllocFailed<T>> for InputRefusal<'_> {
    ghost from_gives = { λ _ e. e ≡ OutOfMemory };

    fn from(_: AllocFailed<T>) -> Self {
        InputRefusal::OutOfMemory
    }
}

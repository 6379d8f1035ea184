ghost use Rattle.std.specs.Prelude.{◌≡◌};
ghost use Rattle.spec_input.specs.declared.fault.FileFault.TheVariants.{OutOfMemory};

use spec_flow_text::TextFault;
use std::alloc::{AllocError, AllocFailed};

/// What is wrong with a file of lines: the file of edits, a steps file or a mirrors file. Lines are counted from 1.
#[derive(Clone, Copy, PartialEq, Eq)]
pub enum FileFault {
    /// A line is none of such a file. `why` is never `OutOfMemory`.
    Line { line: u32, why: TextFault },
    /// The time of a sync line is below that of the one before it.
    SyncOrder { line: u32 },
    /// A line has more than 4,096 bytes.
    LineTooLong,
    /// The file has more than 32,768 edits.
    TooManyEdits,
    /// The file has more than 63 sync lines.
    TooManySyncs,
    /// The file has more than 131,072 steps.
    TooManySteps,
    /// The file has more than 16 mirrors.
    TooManyMirrors,
    OutOfMemory,
}

impl From<AllocError> for FileFault {
    ghost from_gives = { λ _ fault. fault ≡ OutOfMemory };

    fn from(_: AllocError) -> FileFault {
        FileFault::OutOfMemory
    }
}

impl<T: Drop> From<AllocFailed<T>> for FileFault {
    ghost from_gives = { λ _ fault. fault ≡ OutOfMemory };

    fn from(_: AllocFailed<T>) -> FileFault {
        FileFault::OutOfMemory
    }
}

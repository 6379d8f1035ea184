ghost use Rattle.std.specs.Prelude.{◌≡◌};
ghost use Rattle.switch_output.specs.declared.refusal.WriteRefusal.TheVariants.{OutOfMemory};
ghost use Rattle.switch_output.specs.declared.refusal.OutputRefusal.TheVariants.{Files, Summary};

use edge_io::Failed;
use std::alloc::{AllocError, AllocFailed};

/// Why the files of a run were not written.
#[derive(Drop)]
pub enum WriteRefusal {
    /// The shelf failed in writing the file of this name.
    WriteFault { name: String },
    OutOfMemory,
}

impl From<AllocError> for WriteRefusal {
    ghost from_gives = { λ _ e. e ≡ OutOfMemory };

    fn from(_: AllocError) -> Self {
        WriteRefusal::OutOfMemory
    }
}

impl<T: Drop> From<AllocFailed<T>> for WriteRefusal {
    ghost from_gives = { λ _ e. e ≡ OutOfMemory };

    fn from(_: AllocFailed<T>) -> Self {
        WriteRefusal::OutOfMemory
    }
}

/// Why it was not told whole what became of a run that was decided.
#[derive(Drop)]
pub enum OutputRefusal {
    /// Its files were not written.
    Files(WriteRefusal),
    /// They were, and its summary was not printed.
    Summary(Failed),
}

impl From<WriteRefusal> for OutputRefusal {
    ghost from_gives = { λ r e. e ≡ Files r };

    fn from(refusal: WriteRefusal) -> Self {
        OutputRefusal::Files(refusal)
    }
}

impl From<Failed> for OutputRefusal {
    ghost from_gives = { λ f e. e ≡ Summary f };

    fn from(failed: Failed) -> Self {
        OutputRefusal::Summary(failed)
    }
}

impl From<AllocError> for OutputRefusal {
    ghost from_gives = { λ _ e. e ≡ Files OutOfMemory };

    fn from(_: AllocError) -> Self {
        OutputRefusal::Files(WriteRefusal::OutOfMemory)
    }
}

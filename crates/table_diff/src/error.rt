ghost use Rattle.std.specs.Prelude.{◌≡◌};
ghost use Rattle.table_diff.specs.declared.error.CompareError.TheVariants.{OutOfMemory};

use std::alloc::AllocError;

/// Why two versions weren't compared.
#[derive(Clone, Copy)]
pub enum CompareError {
    /// There are more cubes than are looked into.
    TooMany,
    OutOfMemory,
}

impl From<AllocError> for CompareError {
    ghost from_gives = { λ _ e. e ≡ OutOfMemory };

    fn from(_: AllocError) -> Self {
        CompareError::OutOfMemory
    }
}

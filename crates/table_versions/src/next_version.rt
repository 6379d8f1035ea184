ghost use Rattle.std.specs.Prelude.{◌≡◌, ◌<◌, ◌+◌};
ghost use Rattle.spec_case.specs.Run.{last_version};

use crate::tables::{RunTables, Tables};
use left_right::Absorb;
use run_case::Case;
use std::alloc::AllocError;
use std::marker::{Model, PhantomData};

/// That tables go on to the version after one, which the run has. Contracts see the version to which they go.
#[derive(Drop)]
pub struct NextVersion<C: Case> {
    before: u32,
    of: PhantomData<C>,
}

impl<C: Case> Model for NextVersion<C> {
    ghost use Rattle.std.specs.Prelude.{◌+◌, ◌<◌, ℕ};
    ghost use Rattle.spec_case.specs.Run.{last_version};

    ghost Value = { ℕ };

    ghost view = { λ next. next.before + 1 };

    ghost invariant = { λ next. next.before < last_version C.run };
}

impl<C: Case> NextVersion<C> {
    /// The version after this one.
    pub fn after(before: u32) -> NextVersion<C>
        requires { before < last_version C.run }
        ensures { result ≡ before + 1 }
    {
        NextVersion {
            before,
            of: PhantomData,
        }
    }
}

impl<C: Case, T: RunTables<C>> Absorb<NextVersion<C>> for Tables<C, T> {
    type State = u64;

    ghost use Rattle.table_versions.specs.Next.{version_after};

    ghost state = { λ tables. tables };

    ghost applied = { version_after };

    // The trait has no condition on operations, so a version that isn't the next one does nothing. None such is ever asked for.
    fn absorb_first(
        &mut self,
        operation: &NextVersion<C>,
        _other: &Tables<C, T>,
    ) -> Result<(), AllocError> {
        if self.kept.version() == operation.before {
            self.kept.advance()?;
        }
        Ok(())
    }
}

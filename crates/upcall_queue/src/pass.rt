ghost use Rattle.std.specs.Prelude.{◌≡◌, []};
ghost use Rattle.crossbeam_queue.specs.Passes.{view};
ghost use Rattle.upcall_queue.specs.Rule.{IsLive};
ghost use Rattle.upcall_queue.specs.Views.{view_of};

use crate::known::Known;
use crate::upcalls::Upcall;
use run_case::Case;
use std::marker::{Model, PhantomData};

/// The right of one thread to put and take. Contracts see what was put and taken by it.
#[derive(Drop)]
pub struct Pass<C: Case> {
    pub(crate) pass: crossbeam_queue::Pass<Upcall, Known>,
    pub(crate) refused: u64,
    pub(crate) of: PhantomData<C>,
}

impl<C: Case> Model for Pass<C> {
    ghost use Rattle.std.specs.Prelude.{◌≡◌, []};
    ghost use Rattle.crossbeam_queue.specs.Passes as passes;
    ghost use Rattle.upcall_queue.specs.Rule.{IsLive};
    ghost use Rattle.upcall_queue.specs.Views.{PassView, view_of};

    ghost Value = { PassView };

    ghost view = { λ p. view_of p.pass.table_id p.refused (passes.view p.pass) };

    ghost invariant = { λ p. IsLive (passes.view p.pass) × (p.pass.me.1 ≡ []) };
}

impl<C: Case> Pass<C> {
    // A pass by which nothing was refused yet.
    pub(crate) fn of(pass: crossbeam_queue::Pass<Upcall, Known>) -> Pass<C>
        requires live { IsLive (view pass) }
        requires own { pass.me.1 ≡ [] }
        ensures { result ≡ view_of pass.table_id 0 (view pass) }
    {
        Pass {
            pass,
            refused: 0,
            of: PhantomData,
        }
    }

    /// How many of its pushes were refused. The count stops at 2^64 - 1.
    pub fn refused(&self) -> u64
        ensures { result ≡ self.now.refused }
    {
        self.refused
    }
}

//! The revalidator.
ghost use Rattle.std.specs.Prelude.{◌≡◌};

use crate::phase::Phase;
use crate::shared::Shared;
use edge_io::{Gate, Point, Worker};
use revalidator::sweep_board;
use run_case::Case;
use std::alloc::{AllocError, Global};
use std::marker::PhantomData;
use std::sync::Wait;
use table_publish::Seer;
use table_versions::RunTables;

/// The revalidator: its seer, whose mailbox has this number.
#[derive(Drop)]
pub struct Revalidator<C: Case, T: RunTables<C>, P: Phase> {
    pub mailbox: usize,
    pub seer: Seer<C, T>,
    pub of: PhantomData<P>,
    pub ghost publication_is: { seer.publication ≡ P.publication },
}

// The seer once it knows the last version of the block, or the editor has ended: then what it told is all that comes.
fn told_last<C: Case, T: RunTables<C>, P: Phase, R: Wait>(
    rt: &R,
    shared: &Shared<'_, C, T, P>,
    mailbox: usize,
    seer: Seer<C, T>,
) -> Seer<C, T>
    requires { seer.publication ≡ P.publication }
    ensures { result.publication ≡ P.publication }
{
    let mut seer = seer;
    let mut turn = 0u32;
    'turns: for _ in rt.forever() {
        if seer.version() >= shared.last || shared.all_edited() {
            break;
        }
        seer = shared.told(rt, mailbox, seer);
        shared.wait_for_edits(rt, turn);
        turn = turn.saturating_add(1);
    }
    shared.told(rt, mailbox, seer)
}

// Makes a sweep of each board.
fn sweep_all<C: Case, T: RunTables<C>, P: Phase, R: Wait, G: Gate>(
    rt: &R,
    alloc: Global,
    shared: &Shared<'_, C, T, P>,
    seer: Seer<C, T>,
    gate: &G,
) -> (Seer<C, T>, Result<(), AllocError>)
    requires { seer.publication ≡ P.publication }
    ensures { result.0.publication ≡ P.publication }
{
    let ports = shared.run.ports().as_slice();
    let mut seer = seer;
    'ports: for at in 0..ports.len() {
        let Some(lock) = shared.locks.get(at) else {
            break;
        };
        let (back, swept) = sweep_board(rt, alloc, seer, shared.run, ports[at], lock, gate);
        seer = back;
        if swept.is_err() {
            return (seer, Err(AllocError));
        }
    }
    (seer, Ok(()))
}

/// Makes a sweep of each board once the last version of the block is told, and another where a newer version was told
/// meanwhile.
///
/// The only error is out of memory.
pub fn revalidate<C: Case, T: RunTables<C>, P: Phase, R: Wait, G: Gate>(
    rt: &R,
    alloc: Global,
    shared: &Shared<'_, C, T, P>,
    revalidator: Revalidator<C, T, P>,
    gate: &G,
) -> (Revalidator<C, T, P>, Result<(), AllocError>) {
    let Revalidator { mailbox, seer, of } = revalidator;
    gate.pass(Point::Begin {
        worker: Worker::Revalidator,
    });
    let seer = told_last(rt, shared, mailbox, seer);
    let (seer, swept) = sweep_all(rt, alloc, shared, seer, gate);
    let seen = seer.version();
    let seer = shared.told(rt, mailbox, seer);
    if swept.is_err() || seer.version() == seen {
        return (Revalidator { mailbox, seer, of }, swept);
    }
    let (seer, swept) = sweep_all(rt, alloc, shared, seer, gate);
    (Revalidator { mailbox, seer, of }, swept)
}

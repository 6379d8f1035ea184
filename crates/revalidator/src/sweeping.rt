//! Sweeps of a board that threads share.
ghost use Rattle.std.specs.Prelude.{◌≡◌, ◌≤◌, ◌<◌, ◌^◌, IfOk, IfSome};
ghost use Rattle.table_publish.specs.Versions.{EndsBlock};
ghost use Rattle.revalidator.specs.Puts.{TellsPut};
ghost use Rattle.revalidator.specs.Sweeps.{HasCause};

use crate::lent::{begin_lent, end_lent, listed_above, put_lent};
use crate::swept::{Begun, Putting, Swept};
use edge_io::{Gate, Point};
use ovs_fields::Key;
use pmd_board::{Board, Xlated};
use run_case::{Case, RunData};
use std::alloc::{AllocError, Global};
use std::sync::{Mutex, Wait};
use table_publish::{Seer, SpareLists, translate_newest};
use table_versions::RunTables;

// The version that a seer sees now.
fn version_seen<C: Case, T: RunTables<C>, R: Wait>(rt: &R, seer: Seer<C, T>) -> (Seer<C, T>, u32)
    ensures publication { result.0.publication ≡ seer.publication }
    ensures newer { seer.version ≤ result.0.version }
    ensures seen { result.1 ≡ result.0.version }
{
    let guard = seer.enter(rt);
    let version = guard.tables().version();
    (guard.leave(), version)
}

// The first entry that a sweep of a board is to put.
fn first_listed<C: Case, R: Wait>(rt: &R, board: &Mutex<Board<C>>) -> Option<(u32, Key)>
    ensures { IfSome result (λ r. (0 < r.0) × (r.0 < 2 ^ 32)) }
{
    listed_above(&*board.lock(rt), 0)
}

// Puts an entry on a board by a translation, and reads under the same lock which one the sweep is to put next.
fn put_and_read<C: Case, R: Wait>(
    rt: &R,
    board: &Mutex<Board<C>>,
    entry: u32,
    made: Xlated<C>,
) -> (Putting, Option<(u32, Key)>)
    requires { 1 ≤ entry }
    ensures tells { TellsPut C.run made.version result.0 }
    ensures next { IfSome result.1 (λ r. (entry < r.0) × (r.0 < 2 ^ 32)) }
{
    let mut lent = board.lock(rt);
    let put = put_lent(&mut *lent, entry, made);
    (put, listed_above(&*lent, entry))
}

// Puts each entry that the sweep of a board lists, in rising order. It answers the newest version that the board's block
// allows, where that stopped it.
fn put_listed<C: Case, T: RunTables<C>, G: Gate, R: Wait>(
    rt: &R,
    alloc: Global,
    seer: Seer<C, T>,
    run: &RunData<C>,
    port: u16,
    board: &Mutex<Board<C>>,
    gate: &G,
) -> (Seer<C, T>, Result<Option<u32>, AllocError>)
    ensures publication { result.0.publication ≡ seer.publication }
    ensures newer { seer.version ≤ result.0.version }
    ensures cause { IfOk result.1 (λ r. IfSome r (λ hi. (hi < result.0.version) × EndsBlock C.run hi)) }
{
    let mut seer = seer;
    let mut lists = SpareLists::new(alloc);
    let mut after = 0;
    let mut listed = first_listed(rt, board);
    'entries: while let Some((entry, key)) = listed {
        let (back, made) = translate_newest(rt, seer, run, &key, lists);
        seer = back;
        let made = match made {
            Ok(made) => made,
            Err(e) => return (seer, Err(e)),
        };
        gate.pass(Point::Check { port, entry });
        let (put, next) = put_and_read(rt, board, entry, made);
        lists = match put {
            Putting::Done { lists } => lists,
            Putting::PassedOver => SpareLists::new(alloc),
            Putting::Ahead { hi } => return (seer, Ok(Some(hi))),
        };
        after = entry;
        listed = next;
    }
    (seer, Ok(None))
}

// Puts each entry that a sweep lists, and ends it. It had begun at a version.
fn put_and_end<C: Case, T: RunTables<C>, G: Gate, R: Wait>(
    rt: &R,
    alloc: Global,
    seer: Seer<C, T>,
    run: &RunData<C>,
    port: u16,
    board: &Mutex<Board<C>>,
    version: u32,
    gate: &G,
) -> (Seer<C, T>, Result<Swept, AllocError>)
    requires { version ≤ seer.version }
    ensures publication { result.0.publication ≡ seer.publication }
    ensures newer { seer.version ≤ result.0.version }
    ensures cause { IfOk result.1 (λ r. HasCause C.run version result.0.version r) }
{
    let (seer, put) = put_listed(rt, alloc, seer, run, port, board, gate);
    match put {
        Ok(None) => {
            let ended = end_lent(&mut *board.lock(rt), version);
            (seer, Ok(ended))
        }
        Ok(Some(hi)) => (seer, Ok(Swept::Beyond { hi })),
        Err(e) => (seer, Err(e)),
    }
}

/// Makes one sweep of a board that threads share, at the version that the seer sees. Each entry that the sweep lists is
/// translated under the newest version that is published then, and put under the lock, unless its key isn't the one that
/// was translated any more; then the sweep is ended.
///
/// The gate is told of this port, between the translation of an entry and its put. The seer is handed back. The only
/// error is out of memory, and then a sweep may be running.
pub fn sweep_board<C: Case, T: RunTables<C>, G: Gate, R: Wait>(
    rt: &R,
    alloc: Global,
    seer: Seer<C, T>,
    run: &RunData<C>,
    port: u16,
    board: &Mutex<Board<C>>,
    gate: &G,
) -> (Seer<C, T>, Result<Swept, AllocError>)
    ensures publication { result.0.publication ≡ seer.publication }
    ensures newer { seer.version ≤ result.0.version }
    ensures cause { IfOk result.1 (λ r. HasCause C.run seer.version result.0.version r) }
{
    let (seer, version) = version_seen(rt, seer);
    let begun = begin_lent(&mut *board.lock(rt), version);
    match begun {
        Ok(Begun::Done) => put_and_end(rt, alloc, seer, run, port, board, version, gate),
        Ok(Begun::Busy { floor }) => (seer, Ok(Swept::Busy { floor })),
        Ok(Begun::Ahead { hi }) => (seer, Ok(Swept::Beyond { hi })),
        Err(e) => (seer, Err(e)),
    }
}

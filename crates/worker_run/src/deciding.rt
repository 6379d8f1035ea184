//! A run, decided by workers.
ghost use Rattle.std.specs.Prelude.{◌≡◌, ◌≤◌, IsTrue, IfOk, MatchBool};
ghost use Rattle.std.specs.List.{list_all};
ghost use Rattle.spec_case.specs.Blocks.{last_block};
ghost use Rattle.spec_tables.specs.Edits.{has_sound_actions};
ghost use Rattle.spec_input.specs.Words.{most_workers};
ghost use Rattle.run_boards.specs.Finished.{AreFinished};

use edge_io::Gate;
use pmd_board::Board;
use run_boards::{Boards, Finished};
use run_case::{Case, RunData};
use std::alloc::{AllocError, Global};
use std::sync::Wait;
use std::thread::Threads;
use step_runner::close_phase;
use table_versions::{RunTables, Tables};
use worker_phase::{WorkedRun, WorkerPool};

// What a phase leaves to the next one.
struct Left<C: Case, T: RunTables<C>> {
    pool: WorkerPool<C, T>,
    boards: Boards<C>,
}

// Ends a phase: the boards finish its block, by the tables that were published last. Where memory was wanting while they
// were published, they are no tables of the block's last version, and others are made. It says whether the boards fitted;
// where they didn't, the whole run is finished.
fn close_block<C: Case + Send + Sync, T: RunTables<C> + Send + Sync>(
    alloc: Global,
    run: &WorkedRun<'_, C>,
    store: T::Store,
    pool: &WorkerPool<C, T>,
    boards: Vec<Board<C>>,
    block: u32,
) -> Result<(Boards<C>, bool), AllocError>
    requires sound { IsTrue (list_all has_sound_actions C.run.edits) }
    requires there { block ≤ last_block C.run }
    ensures { IfOk result (λ r. MatchBool r.1
        (block ≡ last_block C.run → AreFinished C.run r.0) (AreFinished C.run r.0)) }
{
    let (data, flow_limit) = (run.data, run.flow_limit);
    let version = data.hi(block);
    if let Some(tables) = pool.tables_of(version) {
        return close_phase(alloc, data, store, boards, tables, block, flow_limit);
    }
    let mut own = Tables::<C, T>::new(alloc, store);
    own.follow(version)?;
    close_phase(alloc, data, store, boards, &own, block, flow_limit)
}

// A phase, and its end.
fn decide_block<
    C: Case + Send + Sync,
    T: RunTables<C> + Send + Sync,
    R: Threads + Wait + Sync,
    G: Gate + Sync,
>(
    rt: &R,
    alloc: Global,
    run: &WorkedRun<'_, C>,
    store: T::Store,
    left: Left<C, T>,
    block: u32,
    gate: &G,
) -> Result<(Left<C, T>, bool), AllocError>
    requires sound { IsTrue (list_all has_sound_actions C.run.edits) }
    requires there { block ≤ last_block C.run }
    ensures { IfOk result (λ r. MatchBool r.1
        (block ≡ last_block C.run → AreFinished C.run r.0.boards) (AreFinished C.run r.0.boards)) }
{
    let Left { pool, boards } = left;
    let (pool, boards) = pool.work(rt, alloc, run, boards.into_vec(), block, gate)?;
    match close_block(alloc, run, store, &pool, boards, block) {
        Ok((boards, fit)) => Ok((Left { pool, boards }, fit)),
        Err(e) => {
            pool.end(rt);
            Err(e)
        }
    }
}

// All phases, until each block is finished.
fn decide_blocks<
    C: Case + Send + Sync,
    T: RunTables<C> + Send + Sync,
    R: Threads + Wait + Sync,
    G: Gate + Sync,
>(
    rt: &R,
    alloc: Global,
    run: &WorkedRun<'_, C>,
    store: T::Store,
    left: Left<C, T>,
    gate: &G,
) -> Result<Boards<C>, AllocError>
    requires sound { IsTrue (list_all has_sound_actions C.run.edits) }
    ensures { IfOk result (AreFinished C.run) }
{
    let last = run.data.last_block();
    let mut left = left;
    'blocks: for block in 0..last + 1 {
        let (next, fit) = decide_block(rt, alloc, run, store, left, block, gate)?;
        if !fit {
            let Left { pool, boards } = next;
            pool.end(rt);
            return Ok(boards);
        }
        left = next;
    }
    let Left { pool, boards } = left;
    pool.end(rt);
    Ok(boards)
}

/// Decides all frames of a run by workers, so many of each kind, from 1 to 16: each block is a phase of threads, and the
/// calling thread ends it.
///
/// Which steps were taken is up to the threads; what is so of finished boards is so of these. By its bounds the call may
/// wait, so that it returns is no part of what is proved.
///
/// The only error is out of memory.
pub fn decide_by_workers<
    C: Case + Send + Sync,
    T: RunTables<C> + Send + Sync,
    R: Threads + Wait + Sync,
    G: Gate + Sync,
>(
    rt: &R,
    alloc: Global,
    run: &RunData<C>,
    store: T::Store,
    flow_limit: u32,
    workers: u8,
    gate: &G,
) -> Result<Finished<C>, AllocError>
    requires sound { IsTrue (list_all has_sound_actions C.run.edits) }
    requires limit { flow_limit ≡ C.run.flow_limit }
    requires workers { (1 ≤ workers) × (workers ≤ most_workers) }
{
    let boards = Boards::new(alloc, run, flow_limit)?;
    let pool = WorkerPool::<C, T>::new(rt, alloc, store, workers)?;
    let worked = WorkedRun {
        data: run,
        flow_limit,
    };
    let boards = decide_blocks(rt, alloc, &worked, store, Left { pool, boards }, gate)?;
    Finished::new(alloc, run, boards)
}

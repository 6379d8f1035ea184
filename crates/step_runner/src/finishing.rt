//! Blocks: the boards of a run are carried through them.
ghost use Rattle.std.specs.Prelude.{◌≡◌, ℕ, ◌+◌, ◌≤◌, ◌<◌, All, OnOk, IfOk};
ghost use Rattle.spec_case.specs.Run.{last_version};
ghost use Rattle.spec_case.specs.Blocks.{AreInOrder, hi, last_block, last_place};
ghost use Rattle.spec_board.specs.Schedules as schedules;
ghost use Rattle.pmd_board.specs.BoardView.{state_of};
ghost use Rattle.spec_run.specs.Journals.{IsByLastVersion};
ghost use Rattle.run_boards.specs.Progress.{IsPast, IsSameBoard, IsSwept, OnlyPlans};
ghost use Rattle.run_boards.specs.Scheduled.{under_way, schedule_of, block_to_finish, HasDone, AreOnlyPlanned, IsNew, TookTurn, TookTurns};
ghost use Rattle.run_boards.specs.Finished.{AreFinished, journals_in};

use crate::deciding::{decide_all, settle_pending};
use crate::steps;
use crate::sweeping::{end_sweep, sweep};
use pmd_board::Board;
use run_boards::{Boards, Finished, recall_laws};
use run_case::{Case, RunData};
use std::alloc::{AllocError, Global};
use table_versions::{RunTables, Tables};

// ---- one board

// Opens the next block of a board that decided all frames of its block, if there is one.
fn open_next<C: Case>(run: &RunData<C>, board: &mut Board<C>, block: u32)
    requires swept { IsSwept C.run (state_of C.run board.old) block }
    requires all { last_place C.run board.old.port block < (state_of C.run board.old).next }
    requires there { block ≤ last_block C.run }
    ensures port { IsSameBoard board.old board.new }
    ensures past { IsPast C.run (state_of C.run board.new) block }
    ensures only_plans { OnlyPlans C.run board.old.port (state_of C.run board.old) (state_of C.run board.new) }
    ensures scheduled { under_way C.run board.new
        ≡ schedules.with_next_opened C.run (under_way C.run board.old) }
{
    let last = run.last_block();
    let _ = board.journal();
    if block < last {
        steps::open_block(board, block + 1);
    }
}

// Finishes the block that a board is in, whatever was done of it, and opens the next.
fn finish_board<C: Case, T: RunTables<C>>(
    alloc: Global,
    run: &RunData<C>,
    tables: &Tables<C, T>,
    board: &mut Board<C>,
    block: u32,
) -> Result<(), AllocError>
    requires version { tables.now ≡ hi C.run block }
    requires limit { board.old.flow_limit ≡ C.run.flow_limit }
    requires there { block ≤ last_block C.run }
    requires in_block { (state_of C.run board.old).block ≡ block }
    ensures port { OnOk result (IsSameBoard board.old board.new) }
    ensures past { OnOk result (IsPast C.run (state_of C.run board.new) block) }
    ensures only_plans { OnOk result
        (OnlyPlans C.run board.old.port (state_of C.run board.old) (state_of C.run board.new)) }
    ensures scheduled { OnOk result (under_way C.run board.new
        ≡ schedules.finish_board C.run tables.now (under_way C.run board.old)) }
{
    end_sweep(alloc, run, tables, board)?;
    settle_pending(alloc, run, tables, board, block)?;
    sweep(alloc, run, tables, board, block)?;
    decide_all(alloc, run, tables, board, block)?;
    open_next(run, board, block);
    Ok(())
}

// A board finishes a block if it is in that block.
fn take_turn<C: Case, T: RunTables<C>>(
    alloc: Global,
    run: &RunData<C>,
    tables: &Tables<C, T>,
    board: &mut Board<C>,
    block: u32,
) -> Result<(), AllocError>
    requires version { tables.now ≡ hi C.run block }
    requires limit { board.old.flow_limit ≡ C.run.flow_limit }
    ensures { OnOk result (TookTurn C.run block tables.now board.old board.new) }
{
    if board.block() == block {
        finish_board(alloc, run, tables, board, block)?;
    }
    Ok(())
}

// ---- all boards

// Each board that is in a block finishes it.
fn finish_boards<C: Case, T: RunTables<C>>(
    alloc: Global,
    run: &RunData<C>,
    tables: &Tables<C, T>,
    boards: &mut Vec<Board<C>>,
    block: u32,
) -> Result<(), AllocError>
    requires version { tables.now ≡ hi C.run block }
    requires limits { All (λ b. b.flow_limit ≡ C.run.flow_limit) boards.old.items }
    ensures { OnOk result (TookTurns C.run block tables.now boards.old.items boards.new.items) }
{
    'boards: for board in boards.iter_mut() {
        take_turn(alloc, run, tables, board, block)?;
    }
    Ok(())
}

// The least block that a board is in.
fn least_block<C: Case>(run: &RunData<C>, boards: &[Board<C>]) -> u32
    ensures least { result ≡ block_to_finish C.run boards.now }
    ensures there { result ≤ last_block C.run }
    ensures in_order { AreInOrder C.run.syncs (last_version C.run) }
{
    let mut least = run.last_block();
    'boards: for board in boards {
        least = least.min(board.block());
    }
    least
}

// Finishes the least block that a board is in, where the tables are of its last version: each board in it is carried to its
// end, whatever was done of it before.
pub(crate) fn finish_least_block<C: Case, T: RunTables<C>>(
    alloc: Global,
    run: &RunData<C>,
    boards: Boards<C>,
    tables: &Tables<C, T>,
    block: u32,
) -> Result<Boards<C>, AllocError>
    requires least { block ≡ block_to_finish C.run boards }
    requires version { tables.now ≡ hi C.run block }
    ensures version { IfOk result (λ left. tables.now ≤ hi C.run (block_to_finish C.run left)) }
    ensures done { IfOk result (λ left. (blocks : ℕ) → blocks ≤ last_block C.run
        → All (HasDone C.run blocks) boards → All (HasDone C.run (blocks + 1)) left) }
    ensures only_plans { IfOk result (AreOnlyPlanned C.run boards) }

    // However many of the block's bundles were published before.
    ensures scheduled { IfOk result (λ left. (newest : ℕ) → newest ≤ tables.now
        → schedule_of C.run tables.now left ≡ schedules.finish_block C.run (schedule_of C.run newest boards)) }
{
    let _ = run.last_block();
    let mut left = boards.into_vec();
    finish_boards(alloc, run, tables, &mut left, block)?;
    Ok(Boards::from_vec(left))
}

/// Finishes the least block that a board is in: all of its bundles are published, and each board in it is carried to its
/// end, whatever was done of it before. A sweep that runs is ended, frames that are pending are settled, a sweep of the
/// block's last version is made where none was completed, the frames that are left are decided, and the next block is
/// opened.
///
/// It takes memory; where there is none, the boards are given up, and the tables are left on the way.
pub fn finish_block<C: Case, T: RunTables<C>>(
    alloc: Global,
    run: &RunData<C>,
    boards: Boards<C>,
    tables: &mut Tables<C, T>,
) -> Result<Boards<C>, AllocError>
    requires { tables.old ≤ hi C.run (block_to_finish C.run boards) }
    ensures published { OnOk result (tables.new ≡ hi C.run (block_to_finish C.run boards)) }
    ensures version { IfOk result (λ left. tables.new ≤ hi C.run (block_to_finish C.run left)) }
    ensures done { IfOk result (λ left. (blocks : ℕ) → blocks ≤ last_block C.run
        → All (HasDone C.run blocks) boards → All (HasDone C.run (blocks + 1)) left) }
    ensures only_plans { IfOk result (AreOnlyPlanned C.run boards) }
    ensures scheduled { IfOk result (λ left. schedule_of C.run tables.new left
        ≡ schedules.finish_block C.run (schedule_of C.run tables.old boards)) }
{
    let block = least_block(run, boards.as_slice());
    tables.follow(run.hi(block))?;
    let left = finish_least_block(alloc, run, boards, tables, block)?;
    Ok(left)
}

// Finishes all blocks, one after the other, whatever was done of them before.
pub(crate) fn finish_blocks<C: Case, T: RunTables<C>>(
    alloc: Global,
    run: &RunData<C>,
    boards: Boards<C>,
    tables: &mut Tables<C, T>,
) -> Result<Boards<C>, AllocError>
    requires { tables.old ≤ hi C.run (block_to_finish C.run boards) }
    ensures finished { IfOk result (AreFinished C.run) }
    ensures only_plans { IfOk result (AreOnlyPlanned C.run boards) }
    ensures scheduled { IfOk result (λ left. schedule_of C.run tables.new left
        ≡ schedules.finish C.run (schedule_of C.run tables.old boards)) }
{
    let last = run.last_block();
    let mut left = boards;
    'rounds: for round in 0..last + 1 {
        left = finish_block(alloc, run, left, tables)?;
    }
    Ok(left)
}

/// Finishes all blocks, one after the other, whatever was done of them before. Then nothing is left to be done.
///
/// The journals are those of the schedule that goes on from these boards and tables. Where nothing was done at the boards,
/// each frame is decided under the last version of its block.
///
/// It takes memory, also for the arrivals of all frames; where there is none, the boards are given up, and the tables are
/// left on the way.
pub fn finish<C: Case, T: RunTables<C>>(
    alloc: Global,
    run: &RunData<C>,
    boards: Boards<C>,
    tables: &mut Tables<C, T>,
) -> Result<Finished<C>, AllocError>
    requires { tables.old ≤ hi C.run (block_to_finish C.run boards) }
    ensures scheduled { IfOk result (λ done. done
        ≡ journals_in (schedules.finish C.run (schedule_of C.run tables.old boards))) }
    ensures by_last_version { IfOk result (λ done.
        All (IsNew C.run.flow_limit) boards → All (IsByLastVersion C.run) done) }
{
    let left = finish_blocks(alloc, run, boards, tables)?;
    recall_laws(left.as_slice());
    let done = Finished::new(alloc, run, left)?;
    Ok(done)
}

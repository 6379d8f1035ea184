//! Frames: those of a board's block are decided under the last version of the block.
ghost use Rattle.std.specs.Prelude.{◌≡◌, ◌+◌, ◌≤◌, ◌<◌, None, false, true, OnOk};
ghost use Rattle.spec_case.specs.Blocks.{hi, last_block, last_place};
ghost use Rattle.spec_board.specs.Refusals.{settle_fault};
ghost use Rattle.spec_board.specs.Schedules as schedules;
ghost use Rattle.spec_board.specs.State as states;
ghost use Rattle.run_case.specs.Places.{HasPlace, IsInBlock};
ghost use Rattle.pmd_board.specs.BoardView.{HasSettled, state_of};
ghost use Rattle.run_boards.specs.Progress.{IsAtRest, IsSwept, IsSameBoard, LeavesNonePending, OnlyPlans, SettlesAsPlanned};
ghost use Rattle.run_boards.specs.Scheduled.{under_way, settled_if_pending};

use crate::steps;
use pipe_model::SpareLists;
use pmd_board::{Board, Looked};
use run_case::{Case, Keyed, RunData};
use std::alloc::{AllocError, Global};
use table_versions::{RunTables, Tables};

// Decides a pending frame: its key is translated, and it is settled by that.
fn upcall<C: Case, T: RunTables<C>>(
    alloc: Global,
    run: &RunData<C>,
    tables: &Tables<C, T>,
    board: &mut Board<C>,
    at: &Keyed<C>,
) -> Result<(), AllocError>
    requires port { at.now.port ≡ board.old.port }
    requires may { settle_fault C.run (state_of C.run board.old) at.now.place tables.now ≡ None }
    ensures { OnOk result (HasSettled C.run board.old at.now.place tables.now board.new) }
{
    let made = tables.translate(run, &at.key, SpareLists::new(alloc))?;
    steps::settle(board, at, made)
}

// ---- frames that are pending

// Settles a pending frame under the last version of its block.
fn settle<C: Case, T: RunTables<C>>(
    alloc: Global,
    run: &RunData<C>,
    tables: &Tables<C, T>,
    board: &mut Board<C>,
    place: u32,
) -> Result<(), AllocError>
    requires version { tables.now ≡ hi C.run (state_of C.run board.old).block }
    requires limit { board.old.flow_limit ≡ C.run.flow_limit }
    requires pending { states.is_pending (states.place_at place (state_of C.run board.old)) ≡ true }
    ensures port { OnOk result (IsSameBoard board.old board.new) }
    ensures settled { OnOk result
        (SettlesAsPlanned C.run board.old.port place (state_of C.run board.old)
        (state_of C.run board.new)) }
    ensures scheduled { OnOk result (under_way C.run board.new
        ≡ schedules.settle_at C.run tables.now place (under_way C.run board.old)) }
{
    let _ = board.journal();
    let at = run.keyed(board.port(), place);
    upcall(alloc, run, tables, board, &at)
}

// Settles a frame if it is pending.
fn settle_if_pending<C: Case, T: RunTables<C>>(
    alloc: Global,
    run: &RunData<C>,
    tables: &Tables<C, T>,
    board: &mut Board<C>,
    place: u32,
) -> Result<(), AllocError>
    requires version { tables.now ≡ hi C.run (state_of C.run board.old).block }
    requires limit { board.old.flow_limit ≡ C.run.flow_limit }
    ensures port { OnOk result (IsSameBoard board.old board.new) }
    ensures none_pending { OnOk result
        (LeavesNonePending C.run board.old.port place (state_of C.run board.old)
        (state_of C.run board.new)) }
    ensures scheduled { OnOk result (under_way C.run board.new
        ≡ settled_if_pending C.run tables.now place (under_way C.run board.old)) }
{
    if board.is_pending(place) {
        settle(alloc, run, tables, board, place)?;
    }
    Ok(())
}

/// Settles the pending frames of a board at which no sweep runs, in rising order. The tables are those of the last version
/// of its block.
pub fn settle_pending<C: Case, T: RunTables<C>>(
    alloc: Global,
    run: &RunData<C>,
    tables: &Tables<C, T>,
    board: &mut Board<C>,
    block: u32,
) -> Result<(), AllocError>
    requires version { tables.now ≡ hi C.run block }
    requires limit { board.old.flow_limit ≡ C.run.flow_limit }
    requires in_block { (state_of C.run board.old).block ≡ block }
    requires rests { (state_of C.run board.old).is_sweeping ≡ false }
    ensures port { OnOk result (IsSameBoard board.old board.new) }
    ensures at_rest { OnOk result (IsAtRest (state_of C.run board.new) block) }
    ensures only_plans { OnOk result
        (OnlyPlans C.run board.old.port (state_of C.run board.old) (state_of C.run board.new)) }
    ensures scheduled { OnOk result (under_way C.run board.new
        ≡ schedules.with_pending_settled C.run tables.now (under_way C.run board.old)) }
{
    let next = board.next();
    'places: for place in 1..next {
        settle_if_pending(alloc, run, tables, board, place)?;
    }
    let _ = board.journal();
    Ok(())
}

// ---- frames that are next

// Looks up the next frame of a board. A megaflow decides it, or it is settled at once, under the last version of its
// block either way.
fn decide_next<C: Case, T: RunTables<C>>(
    alloc: Global,
    run: &RunData<C>,
    tables: &Tables<C, T>,
    board: &mut Board<C>,
    block: u32,
    place: u32,
) -> Result<(), AllocError>
    requires version { tables.now ≡ hi C.run block }
    requires limit { board.old.flow_limit ≡ C.run.flow_limit }
    requires swept { IsSwept C.run (state_of C.run board.old) block }
    requires turn { (state_of C.run board.old).next ≡ place }
    requires place { HasPlace C.run board.old.port place }
    requires in_block { IsInBlock C.run board.old.port block place }
    ensures port { OnOk result (IsSameBoard board.old board.new) }
    ensures swept { OnOk result (IsSwept C.run (state_of C.run board.new) block) }
    ensures next { OnOk result ((state_of C.run board.new).next ≡ place + 1) }
    ensures only_plans { OnOk result
        (OnlyPlans C.run board.old.port (state_of C.run board.old) (state_of C.run board.new)) }
    ensures scheduled { OnOk result (under_way C.run board.new
        ≡ schedules.decide_next C.run tables.now (under_way C.run board.old) place) }
{
    prove!(board.next() == place);
    let _ = board.journal();
    let at = run.keyed(board.port(), place);
    match steps::look(board, &at) {
        Looked::Exact(_) | Looked::Mega(_) => Ok(()),
        Looked::Miss => upcall(alloc, run, tables, board, &at),
    }
}

/// Decides the frames that are left of the block that a board is in.
pub fn decide_all<C: Case, T: RunTables<C>>(
    alloc: Global,
    run: &RunData<C>,
    tables: &Tables<C, T>,
    board: &mut Board<C>,
    block: u32,
) -> Result<(), AllocError>
    requires version { tables.now ≡ hi C.run block }
    requires limit { board.old.flow_limit ≡ C.run.flow_limit }
    requires there { block ≤ last_block C.run }
    requires swept { IsSwept C.run (state_of C.run board.old) block }
    ensures port { OnOk result (IsSameBoard board.old board.new) }
    ensures swept { OnOk result (IsSwept C.run (state_of C.run board.new) block) }
    ensures all { OnOk result
        (last_place C.run board.old.port block < (state_of C.run board.new).next) }
    ensures only_plans { OnOk result
        (OnlyPlans C.run board.old.port (state_of C.run board.old) (state_of C.run board.new)) }
    ensures scheduled { OnOk result (under_way C.run board.new
        ≡ schedules.with_all_decided C.run tables.now (under_way C.run board.old)) }
{
    let _ = board.journal();
    let next = board.next();
    let _ = run.frames(board.port());
    let end = run.last_place(board.port(), block);
    'places: for place in next..end + 1 {
        decide_next(alloc, run, tables, board, block, place)?;
    }
    Ok(())
}

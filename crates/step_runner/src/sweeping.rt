//! Sweeps: the entries of a board are carried to the last version of its block.
ghost use Rattle.std.specs.Prelude.{◌≡◌, [], false, OnOk};
ghost use Rattle.spec_case.specs.Blocks.{hi};
ghost use Rattle.spec_board.specs.Schedules as schedules;
ghost use Rattle.pmd_board.specs.BoardView.{state_of};
ghost use Rattle.run_boards.specs.Progress.{IsAsFar, IsAtRest, IsSwept, IsSameBoard, OnlyPuts};
ghost use Rattle.run_boards.specs.Scheduled.{under_way, with_listed_put};

use crate::steps;
use pipe_model::SpareLists;
use pmd_board::Board;
use run_case::{Case, RunData};
use std::alloc::{AllocError, Global};
use table_versions::{RunTables, Tables};

// Puts each entry that the sweep of a board lists, in rising order, by the translation of its key under the last version
// of its block. Each translation is made in the lists that the put before it gave back, so that a sweep that keeps its
// entries takes no memory for each.
fn put_listed<C: Case, T: RunTables<C>>(
    alloc: Global,
    run: &RunData<C>,
    tables: &Tables<C, T>,
    board: &mut Board<C>,
) -> Result<(), AllocError>
    requires { tables.now ≡ hi C.run (state_of C.run board.old).block }
    ensures port { OnOk result (IsSameBoard board.old board.new) }
    ensures only_puts { OnOk result
        (OnlyPuts (state_of C.run board.old) (state_of C.run board.new)) }
    ensures none_left { OnOk result ((state_of C.run board.new).listed ≡ []) }
    ensures put { OnOk result (under_way C.run board.new
        ≡ with_listed_put C.run tables.now (under_way C.run board.old)) }
{
    let _ = board.journal();
    let mut lists = SpareLists::new(alloc);
    let mut after = 0;
    'entries: while let Some((number, key)) = board.next_check(after) {
        let made = tables.translate(run, &key, lists)?;
        lists = steps::put(board, number, made);
        after = number;
    }
    Ok(())
}

/// Ends the sweep that runs at a board, if one does. The tables are those of the last version of its block.
pub fn end_sweep<C: Case, T: RunTables<C>>(
    alloc: Global,
    run: &RunData<C>,
    tables: &Tables<C, T>,
    board: &mut Board<C>,
) -> Result<(), AllocError>
    requires { tables.now ≡ hi C.run (state_of C.run board.old).block }
    ensures port { OnOk result (IsSameBoard board.old board.new) }
    ensures rests { OnOk result ((state_of C.run board.new).is_sweeping ≡ false) }
    ensures as_far { OnOk result (IsAsFar (state_of C.run board.old) (state_of C.run board.new)) }
    ensures ended { OnOk result (under_way C.run board.new
        ≡ schedules.with_sweep_ended C.run tables.now (under_way C.run board.old)) }
{
    if board.is_sweeping() {
        put_listed(alloc, run, tables, board)?;
        steps::end(board);
    }
    Ok(())
}

/// Makes a sweep of the last version of a board's block, where none was completed. The tables are those of that version.
pub fn sweep<C: Case, T: RunTables<C>>(
    alloc: Global,
    run: &RunData<C>,
    tables: &Tables<C, T>,
    board: &mut Board<C>,
    block: u32,
) -> Result<(), AllocError>
    requires version { tables.now ≡ hi C.run block }
    requires at_rest { IsAtRest (state_of C.run board.old) block }
    ensures port { OnOk result (IsSameBoard board.old board.new) }
    ensures swept { OnOk result (IsSwept C.run (state_of C.run board.new) block) }
    ensures as_far { OnOk result (IsAsFar (state_of C.run board.old) (state_of C.run board.new)) }
    ensures made { OnOk result (under_way C.run board.new
        ≡ schedules.with_sweep_made C.run tables.now (under_way C.run board.old)) }
{
    let version = tables.version();
    if board.done() < version {
        steps::begin(board, version)?;
        put_listed(alloc, run, tables, board)?;
        steps::end(board);
    }
    Ok(())
}

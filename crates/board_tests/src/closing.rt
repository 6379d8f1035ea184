//! What the end of a phase of workers makes of the boards that they leave.
ghost use Rattle.std.specs.Prelude.{◌≡◌, IsTrue};
ghost use Rattle.std.specs.List.{list_all};
ghost use Rattle.spec_tables.specs.Edits.{has_sound_actions};

use crate::calls::{Call, Done};
use crate::flows::{HIGH_TO_9, LOW_TO_ANY};
use crate::rows::{AMPLE, NO_FRAMES, ONE_FRAME, Row, TWO_FRAMES, are_as_shown};
use pmd_board::{Board, LookFault, Looked, OpenFault};
use run_case::{Case, RunData};
use std::alloc::{AllocError, Global};
use std::mem;
use std::test::Fail;
use step_runner::close_phase;
use table_versions::{RunTables, Tables};

/// Whether the end of a phase says so whether a board fits, and leaves one board, which takes the board's place. A
/// block after the last stands for the last.
pub fn closes<C: Case, T: RunTables<C>>(
    alloc: Global,
    run: &RunData<C>,
    store: T::Store,
    board: &mut Board<C>,
    block: u32,
    flow_limit: u32,
    fits: bool,
) -> Result<bool, AllocError>
    requires sound { IsTrue (list_all has_sound_actions C.run.edits) }
    requires limit { flow_limit ≡ C.run.flow_limit }
{
    let mut tables = Tables::<C, T>::new(alloc, store);
    let closed = closes_by::<C, T>(
        alloc,
        run,
        store,
        &mut tables,
        board,
        block,
        flow_limit,
        fits,
    );
    drop(tables);
    closed
}

/// The same by tables, which follow to the newest version that the block allows.
fn closes_by<C: Case, T: RunTables<C>>(
    alloc: Global,
    run: &RunData<C>,
    store: T::Store,
    tables: &mut Tables<C, T>,
    board: &mut Board<C>,
    block: u32,
    flow_limit: u32,
    fits: bool,
) -> Result<bool, AllocError>
    requires sound { IsTrue (list_all has_sound_actions C.run.edits) }
    requires limit { flow_limit ≡ C.run.flow_limit }
    requires new { tables.old ≡ 0 }
{
    let block = block.min(run.last_block());
    tables.follow(run.hi(block))?;
    let other = Board::new(alloc, run, board.port(), flow_limit)?;
    let boards = vec![in alloc; mem::replace(board, other)]?;
    let (left, fitted) = close_phase(alloc, run, store, boards, tables, block, flow_limit)?;
    Ok(takes_place(board, left.into_vec()) && fitted == fits)
}

/// Whether one board is left. The last one, if there is one, takes the board's place.
fn takes_place<C: Case>(board: &mut Board<C>, left: Vec<Board<C>>) -> bool {
    let mut left = left;
    let last = left.pop();
    let is_only = left.is_empty();
    drop(left);
    match last {
        Some(last) => {
            drop(mem::replace(board, last));
            is_only
        }
        None => false,
    }
}

// In each row two frames to 9 come in the first block, whose one rule sends to port 2, and a third one in the second
// block, whose other rule sends it to port 3.
const ROWS: [Row; 4] = [
    Row {
        shows: "a board that has looked up nothing fits, and its block is decided by what it installs then",
        flows: &[LOW_TO_ANY, HIGH_TO_9],
        sync: Some((3, 1)),
        frames: &[(1, 9), (2, 9), (4, 9)],
        flow_limit: AMPLE,
        calls: &[
            Call::Close(0, true),
            Call::Look(1, Err(LookFault::OutOfTurn { next: 3 })),
            Call::Entry(1, ONE_FRAME, ONE_FRAME),
            Call::Total(1, ONE_FRAME),
            Call::Open(1, Err(OpenFault::Order { block: 1, last: 1 })),
            Call::Look(3, Ok(Looked::Exact(1))),
        ],
    },
    Row {
        shows: "a board fits whose frame waits for its upcall, and its run is finished block by block",
        flows: &[LOW_TO_ANY, HIGH_TO_9],
        sync: Some((3, 1)),
        frames: &[(1, 9), (2, 9), (4, 9)],
        flow_limit: AMPLE,
        calls: &[
            Call::Look(1, Ok(Looked::Miss)),
            Call::Close(0, true),
            Call::Entry(1, ONE_FRAME, ONE_FRAME),
            Call::Total(1, ONE_FRAME),
            Call::Close(1, true),
            Call::NoEntry(1),
            Call::Entry(2, NO_FRAMES, NO_FRAMES),
            Call::Total(1, TWO_FRAMES),
            Call::Total(2, ONE_FRAME),
            Call::Look(3, Err(LookFault::OutOfTurn { next: 4 })),
        ],
    },
    Row {
        shows: "in the place of a board of another block a new one is carried through the whole run",
        flows: &[LOW_TO_ANY, HIGH_TO_9],
        sync: Some((3, 1)),
        frames: &[(1, 9), (2, 9), (4, 9)],
        flow_limit: AMPLE,
        calls: &[
            Call::Look(1, Ok(Looked::Miss)),
            Call::Settle(1, 0, Ok(Done::Installed(1, None))),
            Call::Look(2, Ok(Looked::Mega(1))),
            Call::Close(1, false),
            Call::NoEntry(1),
            Call::Entry(2, NO_FRAMES, NO_FRAMES),
            Call::Total(1, TWO_FRAMES),
            Call::Total(2, ONE_FRAME),
            Call::Look(3, Err(LookFault::OutOfTurn { next: 4 })),
        ],
    },
    Row {
        shows: "in the place of a board with another flow limit a new one is carried through the whole run",
        flows: &[LOW_TO_ANY, HIGH_TO_9],
        sync: Some((3, 1)),
        frames: &[(1, 9), (2, 9), (4, 9)],
        flow_limit: AMPLE,
        calls: &[
            Call::Renew(AMPLE - 1),
            Call::Close(0, false),
            Call::NoEntry(1),
            Call::Entry(2, NO_FRAMES, NO_FRAMES),
            Call::Total(1, TWO_FRAMES),
            Call::Total(2, ONE_FRAME),
            Call::Look(3, Err(LookFault::OutOfTurn { next: 4 })),
        ],
    },
];

#[test]
fn a_phase_is_closed_with_boards_that_fit_and_anew_for_others(rt: HostRuntime) -> Result<(), Fail> {
    are_as_shown(&rt, rt.alloc(), &ROWS)
}

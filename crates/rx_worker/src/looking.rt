//! Batches of looks.
ghost use Rattle.std.specs.Prelude.{◌≡◌, ◌+◌, ◌^◌, ◌≤◌, ◌<◌, min, if◌then◌else◌};
ghost use Rattle.spec_case.specs.Blocks.{last_place};
ghost use Rattle.spec_board.specs.Steps as steps;
ghost use Rattle.pmd_board.specs.BoardView.{Appends, state_of};
ghost use Rattle.rx_worker.specs.Batches.{LooksUp, batch_size, is_miss, places_left};

use crate::batch::Batch;
use pmd_board::{Board, Looked};
use run_case::{Case, RunData};

/// How many frames a batch has, where so many are left of the board's block.
pub const BATCH_SIZE: u32 = 32;

// Looks up the frame of a place, the next one of a board's block.
fn look_next<C: Case>(run: &RunData<C>, board: &mut Board<C>, place: u32) -> Looked
    requires next { place ≡ (state_of C.run board.old).next }
    requires in_block { place ≤ last_place C.run board.old.port (state_of C.run board.old).block }
    ensures { Appends C.run board.old (steps.Look place result) board.new }
{
    let _ = board.journal();
    let at = run.keyed(board.port(), place);
    match board.look(&at) {
        Ok(found) => found,
        Err(_) => unreachable!(),
    }
}

// The bit that tells of a look whether it was a miss.
fn miss_bit(found: Looked, turn: u32) -> u32
    requires { turn < batch_size }
    ensures { result ≡ (if is_miss found then 2 ^ turn else 0) }
{
    match found {
        Looked::Miss => 1 << turn,
        _ => 0,
    }
}

/// Looks up the next frames of a board's block: `BATCH_SIZE` of them, or all that are left where these are fewer. It takes
/// no memory.
pub fn look_batch<C: Case>(run: &RunData<C>, board: &mut Board<C>) -> Batch
    ensures first { result.first ≡ (state_of C.run board.old).next }
    ensures looked { result.looked ≡ min batch_size (places_left C.run board.old) }
    ensures looks { LooksUp C.run board.old result board.new }
    ensures none_left { result.looked < batch_size
        → last_place C.run board.old.port (state_of C.run board.old).block
        < (state_of C.run board.new).next }
{
    let first = board.next();
    let port = board.port();
    let _ = run.frames(port);
    let last = run.last_place(port, board.block());
    let looked = (last + 1).saturating_sub(first).min(BATCH_SIZE);
    let mut missed = 0;
    'turns: for turn in 0..looked {
        let found = look_next(run, board, first + turn);
        missed += miss_bit(found, turn);
    }
    Batch {
        first,
        looked,
        missed,
    }
}

//! Polls of a port whose board threads share.
ghost use Rattle.std.specs.Prelude.{◌≡◌, ◌+◌, ◌^◌, ◌≤◌, ◌<◌, if◌then◌else◌};
ghost use Rattle.spec_base.specs.Counts.{Rose};
ghost use Rattle.rx_worker.specs.Batches.{batch_size, misses_before};
ghost use Rattle.rx_worker.specs.Polls.{AreFramesOf, Gives, Took};

use crate::batch::{Batch, Polled};
use crate::looking::look_batch;
use edge_io::{Gate, Point};
use pmd_board::Board;
use run_case::{Case, RunData};
use std::sync::{Mutex, Wait};
use upcall_queue::upcalls::Upcalls;

// A batch of looks, with the port whose frames it looked up.
fn look_lent<C: Case>(run: &RunData<C>, board: &mut Board<C>) -> (u16, Batch)
    ensures frames { AreFramesOf C.run result.0 result.1.first result.1.looked }
    ensures size { result.1.looked ≤ batch_size }
    ensures few { result.1.first + result.1.looked < 2 ^ 32 }
{
    let port = board.port();
    let _ = run.frames(port);
    let _ = board.journal();
    (port, look_batch(run, board))
}

// Gives the upcall of one frame, if it was missed.
fn give_if_missed<C: Case, Q: Upcalls<C>>(
    port: u16,
    place: u32,
    missed: bool,
    queue: &mut Q,
) -> Polled
    ensures rest { Q.rest queue.new ≡ Q.rest queue.old }
    ensures took { Took port place (place + 1) (Q.given queue.old) result.given (Q.given queue.new) }
    ensures one { result.given + result.refused ≡ (if missed then 1 else 0) }
    ensures count { Q.refusals queue.old ≤ Q.refusals queue.new }
    ensures refused { 0 < result.refused → Rose (Q.refusals queue.old) (Q.refusals queue.new) }
{
    if !missed {
        return Polled {
            looked: 1,
            given: 0,
            refused: 0,
        };
    }
    if queue.give(port, place) {
        Polled {
            looked: 1,
            given: 1,
            refused: 0,
        }
    } else {
        Polled {
            looked: 1,
            given: 0,
            refused: 1,
        }
    }
}

// Gives the upcall of each frame that a batch missed.
fn give_misses<C: Case, Q: Upcalls<C>>(port: u16, batch: Batch, queue: &mut Q) -> Polled
    requires frames { AreFramesOf C.run port batch.first batch.looked }
    requires size { batch.looked ≤ batch_size }
    requires few { batch.first + batch.looked < 2 ^ 32 }
    ensures rest { Q.rest queue.new ≡ Q.rest queue.old }
    ensures looked { result.looked ≡ batch.looked }
    ensures given { Gives C.run (Q.given queue.old) result (Q.given queue.new) }
    ensures each { result.given + result.refused ≡ misses_before batch.missed batch.looked }
    ensures few { result.given + result.refused ≤ result.looked }
    ensures count { Q.refusals queue.old ≤ Q.refusals queue.new }
    ensures refused { 0 < result.refused → Rose (Q.refusals queue.old) (Q.refusals queue.new) }
{
    let mut given = 0;
    let mut refused = 0;
    'turns: for turn in 0..batch.looked {
        let missed = batch.is_missed(turn);
        let one = give_if_missed::<C, Q>(port, batch.first + turn, missed, queue);
        given += one.given;
        refused += one.refused;
    }
    Polled {
        looked: batch.looked,
        given,
        refused,
    }
}

/// Looks up a batch of frames of a board that threads share, and then gives the upcalls of those that the caches missed.
/// The lock is held for the looks alone. An upcall that is refused leaves its frame pending.
///
/// The gate is told of `port` once, before the looks; the frames are those of the board's own port. It takes no memory.
pub fn poll_batch<C: Case, Q: Upcalls<C>, G: Gate, R: Wait>(
    rt: &R,
    run: &RunData<C>,
    port: u16,
    board: &Mutex<Board<C>>,
    queue: &mut Q,
    gate: &G,
) -> Polled
    ensures rest { Q.rest queue.new ≡ Q.rest queue.old }
    ensures looked { result.looked ≤ batch_size }
    ensures given { Gives C.run (Q.given queue.old) result (Q.given queue.new) }
    ensures few { result.given + result.refused ≤ result.looked }
    ensures count { Q.refusals queue.old ≤ Q.refusals queue.new }
    ensures refused { 0 < result.refused → Rose (Q.refusals queue.old) (Q.refusals queue.new) }
{
    gate.pass(Point::Batch { port });
    let (own_port, batch) = look_lent(run, &mut *board.lock(rt));
    give_misses::<C, Q>(own_port, batch, queue)
}

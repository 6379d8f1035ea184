//! Receive workers.
ghost use Rattle.std.specs.Prelude.{◌≡◌, ◌<◌};

use crate::phase::Phase;
use crate::shared::Shared;
use edge_io::{Gate, Point, Worker};
use pmd_board::Board;
use run_case::Case;
use rx_worker::{BATCH_SIZE, poll_batch};
use std::marker::PhantomData;
use std::sync::{Mutex, Wait};
use table_versions::RunTables;
use upcall_queue::upcalls::Upcalls;
use upcall_queue::{Feeder, Pass};

/// How many turns a receive worker waits for room in the queue before it goes on without.
const PATIENCE: u32 = 200;

/// A receive worker: which one it is, from 0, and the pass by which it puts upcalls.
#[derive(Drop)]
pub struct Receiver<C: Case, P: Phase> {
    pub number: usize,
    pub pass: Pass<C>,
    pub of: PhantomData<P>,
    pub ghost queue_is: { pass.queue ≡ P.queue },
}

// Waits until the queue has room for a batch of each receive worker, at most so many turns. It answers how many turns are
// to be waited next time: none where there was no room to the end, so that where nobody takes upcalls that is waited for
// once.
fn wait_for_room<C: Case, T: RunTables<C>, P: Phase, R: Wait>(
    rt: &R,
    shared: &Shared<'_, C, T, P>,
    feeder: &mut Feeder<'_, C, R>,
    turns: u32,
) -> u32
    ensures { feeder.new.queue ≡ feeder.old.queue }
{
    let wanted = shared.workers.saturating_mul(BATCH_SIZE as usize);
    'turns: for turn in 0..turns {
        if feeder.room() >= wanted {
            return PATIENCE;
        }
        shared.wait_for_handlers(rt, turn);
    }
    if feeder.room() >= wanted { PATIENCE } else { 0 }
}

// Polls a port until its block is looked up. It may wait so many turns for room, and answers how many it may next time.
fn poll_port<C: Case, T: RunTables<C>, P: Phase, R: Wait, G: Gate>(
    rt: &R,
    shared: &Shared<'_, C, T, P>,
    port: u16,
    lock: &Mutex<Board<C>>,
    feeder: &mut Feeder<'_, C, R>,
    patience: u32,
    gate: &G,
) -> u32
    ensures { feeder.new.queue ≡ feeder.old.queue }
{
    let mut patience = patience;
    'batches: for _ in rt.forever() {
        patience = wait_for_room(rt, shared, feeder, patience);
        let polled = poll_batch(rt, shared.run, port, lock, feeder, gate);
        if polled.given > 0 {
            shared.given.notify_one();
        }
        if polled.looked < BATCH_SIZE {
            break;
        }
    }
    patience
}

// Polls the ports of a receive worker, one after the other.
fn poll_ports<C: Case, T: RunTables<C>, P: Phase, R: Wait, G: Gate>(
    rt: &R,
    shared: &Shared<'_, C, T, P>,
    number: usize,
    feeder: &mut Feeder<'_, C, R>,
    gate: &G,
)
    ensures { feeder.new.queue ≡ feeder.old.queue }
{
    let ports = shared.run.ports().as_slice();
    let workers = shared.workers;
    let mut patience = PATIENCE;
    'ports: for at in 0..ports.len() {
        if at % workers != number {
            continue;
        }
        if let Some(lock) = shared.locks.get(at) {
            patience = poll_port(rt, shared, ports[at], lock, feeder, patience, gate);
        }
    }
}

/// Polls the ports of a receive worker until their block is looked up.
pub fn receive<C: Case, T: RunTables<C>, P: Phase, R: Wait, G: Gate>(
    rt: &R,
    shared: &Shared<'_, C, T, P>,
    receiver: Receiver<C, P>,
    gate: &G,
) -> Receiver<C, P> {
    let Receiver { number, pass, of } = receiver;
    gate.pass(Point::Begin {
        worker: Worker::Receiver { number },
    });
    let mut feeder = Feeder::new(rt, shared.queue, pass);
    poll_ports(rt, shared, number, &mut feeder, gate);
    shared.end_receiving();
    Receiver {
        number,
        pass: feeder.into_pass(),
        of,
    }
}

//! Handlers of upcalls.
ghost use Rattle.std.specs.Prelude.{◌≡◌, ◌≤◌, ◌<◌, IfOk, length};

use crate::phase::Phase;
use crate::shared::{Shared, most_queued};
use edge_io::{Gate, Point, Worker};
use run_case::Case;
use std::alloc::{AllocError, Global};
use std::marker::PhantomData;
use std::sync::Wait;
use table_publish::Seer;
use table_versions::RunTables;
use upcall_handler::handle_all;
use upcall_queue::Pass;
use upcall_queue::upcalls::Upcall;

/// How many upcalls a handler takes at a time, at most.
const MOST_UPCALLS: usize = 32;

/// A handler: its seer, whose mailbox has this number, and the pass by which it takes upcalls.
#[derive(Drop)]
pub struct Handler<C: Case, T: RunTables<C>, P: Phase> {
    pub mailbox: usize,
    pub seer: Seer<C, T>,
    pub pass: Pass<C>,
    pub of: PhantomData<P>,
    pub ghost publication_is: { seer.publication ≡ P.publication },
    pub ghost queue_is: { pass.queue ≡ P.queue },
}

// Takes an upcall, if there is one, and answers whether there was.
fn take_one<C: Case, T: RunTables<C>, P: Phase, R: Wait>(
    rt: &R,
    shared: &Shared<'_, C, T, P>,
    pass: &mut Pass<C>,
    taken: &mut Vec<Upcall>,
) -> Result<bool, AllocError>
    requires { pass.old.queue ≡ P.queue }
    ensures { pass.new.queue ≡ P.queue }
{
    let Some(upcall) = shared.queue.pop(rt, pass) else {
        return Ok(false);
    };
    taken.push(upcall)?;
    Ok(true)
}

// Takes upcalls, if there are any: one, and its share of those that are left where it was busy. Another handler is told
// of the others.
fn take_share<C: Case, T: RunTables<C>, P: Phase, R: Wait>(
    rt: &R,
    shared: &Shared<'_, C, T, P>,
    pass: &mut Pass<C>,
    was_idle: bool,
    taken: &mut Vec<Upcall>,
) -> Result<(), AllocError>
    requires { pass.old.queue ≡ P.queue }
    ensures { pass.new.queue ≡ P.queue }
{
    if !take_one(rt, shared, pass, taken)? {
        return Ok(());
    }
    let queued = most_queued(shared.workers).saturating_sub(shared.queue.room(rt, pass));
    if queued > 0 {
        shared.given.notify_one();
    }
    let share = if was_idle {
        0
    } else {
        (queued / shared.workers).min(MOST_UPCALLS - 1)
    };
    'upcalls: for _ in 0..share {
        if !take_one(rt, shared, pass, taken)? {
            break;
        }
    }
    Ok(())
}

// Handles upcalls of one port at its board, and answers of how many it is known what became of them.
fn handle_at<C: Case, T: RunTables<C>, P: Phase, R: Wait, G: Gate>(
    rt: &R,
    alloc: Global,
    shared: &Shared<'_, C, T, P>,
    seer: Seer<C, T>,
    upcalls: &[Upcall],
    gate: &G,
) -> (Seer<C, T>, Result<usize, AllocError>)
    requires { seer.publication ≡ P.publication }
    ensures publication { result.0.publication ≡ P.publication }
    ensures all { IfOk result.1 (λ count. count ≡ length upcalls.now) }
{
    let Some(first) = upcalls.first() else {
        return (seer, Ok(0));
    };
    // Upcalls of a port that the run hasn't are of no use.
    let Some(at) = shared.run.ports().find(first.port) else {
        return (seer, Ok(upcalls.len()));
    };
    let Some(lock) = shared.locks.get(at as usize) else {
        return (seer, Ok(upcalls.len()));
    };
    let (seer, handled) = handle_all(rt, alloc, seer, shared.run, lock, upcalls, gate);
    match handled {
        Ok(handled) => (seer, Ok(handled.total())),
        Err(e) => (seer, Err(e)),
    }
}

// How many of the upcalls, from the first one on, are of its port.
fn row_length(upcalls: &[Upcall]) -> usize
    requires { 0 < length upcalls.now }
    ensures some { 0 < result }
    ensures within { result ≤ length upcalls.now }
{
    let port = upcalls[0].port;
    'places: for place in 1..upcalls.len() {
        if upcalls[place].port != port {
            return place;
        }
    }
    upcalls.len()
}

// Handles upcalls that were taken, those of one port that stand in a row together, and answers of how many it is known
// what became of them.
fn handle_taken<C: Case, T: RunTables<C>, P: Phase, R: Wait, G: Gate>(
    rt: &R,
    alloc: Global,
    shared: &Shared<'_, C, T, P>,
    seer: Seer<C, T>,
    taken: &[Upcall],
    gate: &G,
) -> (Seer<C, T>, Result<usize, AllocError>)
    requires { seer.publication ≡ P.publication }
    ensures publication { result.0.publication ≡ P.publication }
    ensures all { IfOk result.1 (λ count. count ≡ length taken.now) }
{
    let mut seer = seer;
    let mut handled = 0;
    'rows: while handled < taken.len() {
        let left = &taken[handled..];
        let row = row_length(left);
        let (back, count) = handle_at(rt, alloc, shared, seer, &left[..row], gate);
        seer = back;
        let Ok(count) = count else {
            return (seer, Err(AllocError));
        };
        handled += count;
    }
    (seer, Ok(handled))
}

// Takes upcalls, or waits for some where there are none; `idle` is for how many turns there were none. It answers whether
// more may come.
fn take_turn<C: Case, T: RunTables<C>, P: Phase, R: Wait>(
    rt: &R,
    shared: &Shared<'_, C, T, P>,
    pass: &mut Pass<C>,
    idle: &mut u32,
    taken: &mut Vec<Upcall>,
) -> Result<bool, AllocError>
    requires { pass.old.queue ≡ P.queue }
    ensures { pass.new.queue ≡ P.queue }
{
    // This is asked first: what is put before the last receive worker ends is found after it.
    let ended = shared.all_received();
    let seen = shared.given.notifications();
    take_share(rt, shared, pass, *idle > 0, taken)?;
    if !taken.is_empty() {
        *idle = 0;
        return Ok(true);
    }
    if ended {
        return Ok(false);
    }
    shared.wait_for_upcalls(rt, *idle, seen);
    *idle = idle.saturating_add(1);
    Ok(true)
}

// Handles the upcalls that were taken, if there are any, by what the seer was told before.
fn handle_told<C: Case, T: RunTables<C>, P: Phase, R: Wait, G: Gate>(
    rt: &R,
    alloc: Global,
    shared: &Shared<'_, C, T, P>,
    mailbox: usize,
    seer: Seer<C, T>,
    taken: &mut Vec<Upcall>,
    gate: &G,
) -> (Seer<C, T>, Result<(), AllocError>)
    requires { seer.publication ≡ P.publication }
    ensures { result.0.publication ≡ P.publication }
{
    if taken.is_empty() {
        return (seer, Ok(()));
    }
    let told = shared.told(rt, mailbox, seer);
    let (back, handled) = handle_taken(rt, alloc, shared, told, taken.as_slice(), gate);
    taken.clear();
    (back, handled.map(|_| ()))
}

/// Handles upcalls until none is left and all receive workers have ended, or memory is wanting.
pub fn handle<C: Case, T: RunTables<C>, P: Phase, R: Wait, G: Gate>(
    rt: &R,
    alloc: Global,
    shared: &Shared<'_, C, T, P>,
    handler: Handler<C, T, P>,
    gate: &G,
) -> (Handler<C, T, P>, Result<(), AllocError>) {
    let Handler {
        mailbox,
        mut seer,
        mut pass,
        of,
    } = handler;
    // Handlers have the first mailboxes, in the order of their numbers.
    gate.pass(Point::Begin {
        worker: Worker::Handler { number: mailbox },
    });
    let mut done = Ok(());
    let mut taken = Vec::new(alloc);
    let mut idle = 0u32;
    'turns: for _ in rt.forever() {
        match take_turn(rt, shared, &mut pass, &mut idle, &mut taken) {
            Ok(true) => {}
            Ok(false) => break,
            Err(error) => {
                done = Err(error);
                break;
            }
        }
        let (back, handled) = handle_told(rt, alloc, shared, mailbox, seer, &mut taken, gate);
        seer = back;
        if handled.is_err() {
            done = handled;
            break;
        }
    }
    drop(taken);
    let handler = Handler {
        mailbox,
        seer,
        pass,
        of,
    };
    (handler, done)
}

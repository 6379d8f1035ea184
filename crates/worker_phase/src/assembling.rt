//! The workers of a phase, and what they share, made; and what they leave, taken in.
ghost use Rattle.std.specs.Prelude.{◌≡◌, All, IfOk};

use crate::handling::Handler;
use crate::mailbox::Mailbox;
use crate::phase::Phase;
use crate::receiving::Receiver;
use crate::revalidating::Revalidator;
use crate::scoped::Workers;
use run_case::Case;
use std::alloc::{AllocError, Global};
use std::marker::PhantomData;
use std::sync::{Mutex, Wait};
use table_publish::Seer;
use table_versions::RunTables;
use upcall_queue::{Pass, UpcallQueue};

/// A lock for each value.
pub fn locked<B: Drop>(alloc: Global, values: Vec<B>) -> Result<Vec<Mutex<B>>, AllocError> {
    let mut locks = Vec::with_capacity(alloc, values.len())?;
    'values: for value in values {
        locks.push(Mutex::new(value))?;
    }
    Ok(locks)
}

/// The values out of their locks.
pub fn unlocked<B: Drop>(alloc: Global, locks: Vec<Mutex<B>>) -> Result<Vec<B>, AllocError> {
    let mut values = Vec::with_capacity(alloc, locks.len())?;
    'locks: for lock in locks {
        values.push(lock.into_inner())?;
    }
    Ok(values)
}

/// So many mailboxes without news.
pub fn mailboxes<C: Case, T: RunTables<C>, P: Phase>(
    alloc: Global,
    count: usize,
) -> Result<Vec<Mutex<Mailbox<C, T, P>>>, AllocError> {
    let mut boxes = Vec::new(alloc);
    'boxes: for _ in 0..count {
        boxes.push(Mutex::new(Mailbox::new()))?;
    }
    Ok(boxes)
}

/// The last of the passes.
#[tactic(auto, using(crate::proofs::Lists::before_last))]
pub fn next_pass<C: Case, P: Phase>(passes: &mut Vec<Pass<C>>) -> Result<Pass<C>, AllocError>
    requires { All (λ p. p.queue ≡ P.queue) passes.old.items }
    ensures queue { All (λ p. p.queue ≡ P.queue) passes.new.items }
    ensures pass { IfOk result (λ p. p.queue ≡ P.queue) }
{
    passes.pop().ok_or(AllocError)
}

// The last of the seers.
#[tactic(auto, using(crate::proofs::Lists::before_last))]
fn next_seer<C: Case, T: RunTables<C>, P: Phase>(
    seers: &mut Vec<Seer<C, T>>,
) -> Result<Seer<C, T>, AllocError>
    requires { All (λ s. s.publication ≡ P.publication) seers.old.items }
    ensures publication { All (λ s. s.publication ≡ P.publication) seers.new.items }
    ensures seer { IfOk result (λ s. s.publication ≡ P.publication) }
{
    seers.pop().ok_or(AllocError)
}

// So many receive workers, each with a pass.
fn receivers_of<C: Case, P: Phase>(
    alloc: Global,
    passes: &mut Vec<Pass<C>>,
    count: usize,
) -> Result<Vec<Receiver<C, P>>, AllocError>
    requires { All (λ p. p.queue ≡ P.queue) passes.old.items }
    ensures { All (λ p. p.queue ≡ P.queue) passes.new.items }
{
    let mut receivers = Vec::new(alloc);
    'workers: for number in 0..count {
        let pass = next_pass::<C, P>(passes)?;
        receivers.push(Receiver {
            number,
            pass,
            of: PhantomData,
        })?;
    }
    Ok(receivers)
}

// A handler with the last of the seers, the last of the passes, and this mailbox.
fn next_handler<C: Case, T: RunTables<C>, P: Phase>(
    seers: &mut Vec<Seer<C, T>>,
    passes: &mut Vec<Pass<C>>,
    mailbox: usize,
) -> Result<Handler<C, T, P>, AllocError>
    requires queue { All (λ p. p.queue ≡ P.queue) passes.old.items }
    requires publication { All (λ s. s.publication ≡ P.publication) seers.old.items }
    ensures queue { All (λ p. p.queue ≡ P.queue) passes.new.items }
    ensures publication { All (λ s. s.publication ≡ P.publication) seers.new.items }
{
    let pass = next_pass::<C, P>(passes)?;
    let seer = next_seer::<C, T, P>(seers)?;
    Ok(Handler {
        mailbox,
        seer,
        pass,
        of: PhantomData,
    })
}

// So many handlers, each with a seer, a mailbox and a pass.
fn handlers_of<C: Case, T: RunTables<C>, P: Phase>(
    alloc: Global,
    seers: &mut Vec<Seer<C, T>>,
    passes: &mut Vec<Pass<C>>,
    count: usize,
) -> Result<Vec<Handler<C, T, P>>, AllocError>
    requires queue { All (λ p. p.queue ≡ P.queue) passes.old.items }
    requires publication { All (λ s. s.publication ≡ P.publication) seers.old.items }
    ensures queue { All (λ p. p.queue ≡ P.queue) passes.new.items }
    ensures publication { All (λ s. s.publication ≡ P.publication) seers.new.items }
{
    let mut handlers = Vec::new(alloc);
    'workers: for mailbox in 0..count {
        handlers.push(next_handler(seers, passes, mailbox)?)?;
    }
    Ok(handlers)
}

/// The workers of a phase, so many of each kind. Seers and passes are handed out from the end of their lists; the mailbox
/// of the revalidator is the last one.
pub fn workers_of<C: Case, T: RunTables<C>, P: Phase>(
    alloc: Global,
    seers: &mut Vec<Seer<C, T>>,
    passes: &mut Vec<Pass<C>>,
    count: usize,
) -> Result<Workers<C, T, P>, AllocError>
    requires queue { All (λ p. p.queue ≡ P.queue) passes.old.items }
    requires publication { All (λ s. s.publication ≡ P.publication) seers.old.items }
    ensures queue { All (λ p. p.queue ≡ P.queue) passes.new.items }
    ensures publication { All (λ s. s.publication ≡ P.publication) seers.new.items }
{
    let receivers = receivers_of(alloc, passes, count)?;
    let handlers = handlers_of(alloc, seers, passes, count)?;
    let seer = next_seer::<C, T, P>(seers)?;
    let revalidator = Revalidator {
        mailbox: count,
        seer,
        of: PhantomData,
    };
    Ok(Workers {
        receivers,
        handlers,
        revalidator,
    })
}

// Takes in the passes of receive workers that have ended.
fn take_in_receivers<C: Case, P: Phase>(
    queue: &UpcallQueue<C>,
    first: &mut Pass<C>,
    receivers: Vec<Receiver<C, P>>,
)
    requires queue { queue.now.name ≡ P.queue }
    requires first { first.old.queue ≡ P.queue }
    ensures { first.new.queue ≡ P.queue }
{
    'receivers: for receiver in receivers {
        queue.take_in(first, receiver.pass);
    }
}

// Takes in the passes of handlers that have ended, and puts their seers back.
fn take_in_handlers<C: Case, T: RunTables<C>, P: Phase>(
    queue: &UpcallQueue<C>,
    first: &mut Pass<C>,
    handlers: Vec<Handler<C, T, P>>,
    seers: &mut Vec<Seer<C, T>>,
) -> Result<(), AllocError>
    requires queue { queue.now.name ≡ P.queue }
    requires first { first.old.queue ≡ P.queue }
    requires seers { All (λ s. s.publication ≡ P.publication) seers.old.items }
    ensures first { first.new.queue ≡ P.queue }
    ensures seers { All (λ s. s.publication ≡ P.publication) seers.new.items }
{
    'handlers: for handler in handlers {
        queue.take_in(first, handler.pass);
        seers.push(handler.seer)?;
    }
    Ok(())
}

// Pops what is left in the queue: its frames stay pending.
fn pop_all<C: Case, R: Wait>(rt: &R, queue: &UpcallQueue<C>, first: &mut Pass<C>)
    requires { first.old.queue ≡ queue.now.name }
{
    'left: for _ in rt.forever() {
        if queue.pop(rt, first).is_none() {
            break;
        }
    }
}

/// Takes in the passes of workers that have ended, puts their seers back, and pops until the queue answers none.
pub fn take_in_workers<C: Case, T: RunTables<C>, P: Phase, R: Wait>(
    rt: &R,
    queue: &UpcallQueue<C>,
    first: &mut Pass<C>,
    workers: Workers<C, T, P>,
    seers: &mut Vec<Seer<C, T>>,
) -> Result<(), AllocError>
    requires queue { queue.now.name ≡ P.queue }
    requires first { first.old.queue ≡ P.queue }
    requires seers { All (λ s. s.publication ≡ P.publication) seers.old.items }
    ensures { All (λ s. s.publication ≡ P.publication) seers.new.items }
{
    let Workers {
        receivers,
        handlers,
        revalidator,
    } = workers;
    take_in_receivers(queue, first, receivers);
    take_in_handlers(queue, first, handlers, seers)?;
    seers.push(revalidator.seer)?;
    pop_all(rt, queue, first);
    Ok(())
}

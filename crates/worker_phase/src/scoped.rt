//! The threads of a phase.
ghost use Rattle.std.specs.Prelude.{◌≡◌, IfErr};

use crate::editing::{PhaseEditor, edit};
use crate::handling::{Handler, handle};
use crate::phase::Phase;
use crate::receiving::{Receiver, receive};
use crate::revalidating::{Revalidator, revalidate};
use crate::shared::Shared;
use edge_io::Gate;
use run_case::Case;
use std::alloc::{AllocError, Global};
use std::sync::Wait;
use std::thread;
use std::thread::{JoinHandle, Scope, SpawnError, Threads};
use table_versions::RunTables;

/// The workers of a phase beside its editor.
#[derive(Drop)]
pub struct Workers<C: Case, T: RunTables<C>, P: Phase> {
    pub receivers: Vec<Receiver<C, P>>,
    pub handlers: Vec<Handler<C, T, P>>,
    pub revalidator: Revalidator<C, T, P>,
}

// Work that was begun: in a thread, or at once, where none could be made.
#[derive(Drop)]
enum Begun<T> {
    InThread(JoinHandle<T>),
    Ended(T),
}

impl<T> Begun<T> {
    // What the work came to, once it has ended.
    fn join<R: Threads>(self, rt: &R) -> T {
        match self {
            Begun::InThread(thread) => thread.join(rt),
            Begun::Ended(done) => done,
        }
    }
}

// Work that was to be done in a thread. Where no thread could be made it is done now.
fn begin<T, F: FnOnce() -> T>(spawned: Result<JoinHandle<T>, SpawnError<F>>) -> Begun<T>
    requires { IfErr spawned (λ refused. F.pre refused.value) }
{
    match spawned {
        Ok(thread) => Begun::InThread(thread),
        Err(refused) => Begun::Ended((refused.value)()),
    }
}

// The workers of a phase and its editor, once their work was begun.
#[derive(Drop)]
struct AtWork<C: Case, T: RunTables<C>, P: Phase> {
    receivers: Vec<Begun<(Receiver<C, P>, Result<(), AllocError>)>>,
    editor: Begun<()>,
    handlers: Vec<Begun<(Handler<C, T, P>, Result<(), AllocError>)>>,
    revalidator: Begun<(Revalidator<C, T, P>, Result<(), AllocError>)>,
}

// Begins the work of a receive worker.
fn begin_receiver<
    's,
    E,
    C: Case + Send + Sync,
    T: RunTables<C> + Send + Sync,
    P: Phase + Send + Sync,
    R: Threads + Wait + Sync,
    G: Gate + Sync,
>(
    scope: &Scope<'s, E>,
    rt: &'s R,
    shared: &'s Shared<'s, C, T, P>,
    receiver: Receiver<C, P>,
    gate: &'s G,
) -> Begun<(Receiver<C, P>, Result<(), AllocError>)> {
    begin(scope.spawn(move || (receive(rt, shared, receiver, gate), Ok(()))))
}

// Begins the work of the receive workers.
fn begin_receivers<
    's,
    E,
    C: Case + Send + Sync,
    T: RunTables<C> + Send + Sync,
    P: Phase + Send + Sync,
    R: Threads + Wait + Sync,
    G: Gate + Sync,
>(
    scope: &Scope<'s, E>,
    rt: &'s R,
    alloc: Global,
    shared: &'s Shared<'s, C, T, P>,
    receivers: Vec<Receiver<C, P>>,
    gate: &'s G,
) -> Result<Vec<Begun<(Receiver<C, P>, Result<(), AllocError>)>>, AllocError> {
    let mut begun = Vec::with_capacity(alloc, receivers.len())?;
    'receivers: for receiver in receivers {
        begun.push(begin_receiver(scope, rt, shared, receiver, gate))?;
    }
    Ok(begun)
}

// Begins the work of a handler.
fn begin_handler<
    's,
    E,
    C: Case + Send + Sync,
    T: RunTables<C> + Send + Sync,
    P: Phase + Send + Sync,
    R: Threads + Wait + Sync,
    G: Gate + Sync,
>(
    scope: &Scope<'s, E>,
    rt: &'s R,
    alloc: Global,
    shared: &'s Shared<'s, C, T, P>,
    handler: Handler<C, T, P>,
    gate: &'s G,
) -> Begun<(Handler<C, T, P>, Result<(), AllocError>)> {
    begin(scope.spawn(move || handle(rt, alloc, shared, handler, gate)))
}

// Begins the work of the handlers.
fn begin_handlers<
    's,
    E,
    C: Case + Send + Sync,
    T: RunTables<C> + Send + Sync,
    P: Phase + Send + Sync,
    R: Threads + Wait + Sync,
    G: Gate + Sync,
>(
    scope: &Scope<'s, E>,
    rt: &'s R,
    alloc: Global,
    shared: &'s Shared<'s, C, T, P>,
    handlers: Vec<Handler<C, T, P>>,
    gate: &'s G,
) -> Result<Vec<Begun<(Handler<C, T, P>, Result<(), AllocError>)>>, AllocError> {
    let mut begun = Vec::with_capacity(alloc, handlers.len())?;
    'handlers: for handler in handlers {
        begun.push(begin_handler(scope, rt, alloc, shared, handler, gate))?;
    }
    Ok(begun)
}

// Begins the work of the revalidator.
fn begin_revalidator<
    's,
    E,
    C: Case + Send + Sync,
    T: RunTables<C> + Send + Sync,
    P: Phase + Send + Sync,
    R: Threads + Wait + Sync,
    G: Gate + Sync,
>(
    scope: &Scope<'s, E>,
    rt: &'s R,
    alloc: Global,
    shared: &'s Shared<'s, C, T, P>,
    revalidator: Revalidator<C, T, P>,
    gate: &'s G,
) -> Begun<(Revalidator<C, T, P>, Result<(), AllocError>)> {
    begin(scope.spawn(move || revalidate(rt, alloc, shared, revalidator, gate)))
}

// Begins the work of the editor that lies in a slot.
fn begin_editor<
    's,
    E,
    C: Case + Send + Sync,
    T: RunTables<C> + Send + Sync,
    P: Phase + Send + Sync,
    R: Threads + Wait + Sync,
    G: Gate + Sync,
>(
    scope: &Scope<'s, E>,
    rt: &'s R,
    shared: &'s Shared<'s, C, T, P>,
    slot: &'s mut Option<PhaseEditor<C, T, P>>,
    gate: &'s G,
) -> Begun<()> {
    begin(scope.spawn(move || edit(rt, shared, slot, gate)))
}

// The workers, once all have ended.
fn join_each<W: Drop, R: Threads>(
    rt: &R,
    alloc: Global,
    begun: Vec<Begun<(W, Result<(), AllocError>)>>,
) -> Result<Vec<W>, AllocError> {
    let mut workers = Vec::with_capacity(alloc, begun.len())?;
    'begun: for one in begun {
        let (worker, done) = one.join(rt);
        done?;
        workers.push(worker)?;
    }
    Ok(workers)
}

// Begins the work of all: of the receive workers and the editor, and then of the handlers and the revalidator.
fn begin_all<
    's,
    E,
    C: Case + Send + Sync,
    T: RunTables<C> + Send + Sync,
    P: Phase + Send + Sync,
    R: Threads + Wait + Sync,
    G: Gate + Sync,
>(
    scope: &Scope<'s, E>,
    rt: &'s R,
    alloc: Global,
    shared: &'s Shared<'s, C, T, P>,
    slot: &'s mut Option<PhaseEditor<C, T, P>>,
    workers: Workers<C, T, P>,
    gate: &'s G,
) -> Result<AtWork<C, T, P>, AllocError> {
    let Workers {
        receivers,
        handlers,
        revalidator,
    } = workers;
    let receivers = begin_receivers(scope, rt, alloc, shared, receivers, gate)?;
    let editor = begin_editor(scope, rt, shared, slot, gate);
    let handlers = begin_handlers(scope, rt, alloc, shared, handlers, gate)?;
    let revalidator = begin_revalidator(scope, rt, alloc, shared, revalidator, gate);
    Ok(AtWork {
        receivers,
        editor,
        handlers,
        revalidator,
    })
}

// Workers that have ended, where there was memory for all that they did.
fn ended<C: Case, T: RunTables<C>, P: Phase>(
    receivers: Result<Vec<Receiver<C, P>>, AllocError>,
    handlers: Result<Vec<Handler<C, T, P>>, AllocError>,
    revalidator: Revalidator<C, T, P>,
    swept: Result<(), AllocError>,
) -> Result<Workers<C, T, P>, AllocError> {
    match (receivers, handlers, swept) {
        (Ok(receivers), Ok(handlers), Ok(())) => Ok(Workers {
            receivers,
            handlers,
            revalidator,
        }),
        _ => Err(AllocError),
    }
}

// The workers, once all have ended, and the editor too.
fn join_all<C: Case, T: RunTables<C>, P: Phase, R: Threads>(
    rt: &R,
    alloc: Global,
    at_work: AtWork<C, T, P>,
) -> Result<Workers<C, T, P>, AllocError> {
    let AtWork {
        receivers,
        editor,
        handlers,
        revalidator,
    } = at_work;
    let receivers = join_each(rt, alloc, receivers);
    editor.join(rt);
    let handlers = join_each(rt, alloc, handlers);
    let (revalidator, swept) = revalidator.join(rt);
    ended(receivers, handlers, revalidator, swept)
}

/// Runs the workers of a phase, each in a thread of its own, and gives them back once all have ended. The receive workers
/// and the editor are started first, then the handlers and the revalidator. Where no thread can be made, the calling
/// thread does the work at once, in this order: so the handlers find all upcalls there.
///
/// The only error is out of memory; the threads that were started have ended then too.
pub fn work<
    C: Case + Send + Sync,
    T: RunTables<C> + Send + Sync,
    P: Phase + Send + Sync,
    R: Threads + Wait + Sync,
    G: Gate + Sync,
>(
    rt: &R,
    alloc: Global,
    shared: &Shared<'_, C, T, P>,
    slot: &mut Option<PhaseEditor<C, T, P>>,
    workers: Workers<C, T, P>,
    gate: &G,
) -> Result<Workers<C, T, P>, AllocError> {
    thread::scope(
        thread::scope_env(),
        rt,
        |scope| -> Result<Workers<C, T, P>, AllocError> {
            let at_work = begin_all(scope, rt, alloc, shared, slot, workers, gate)?;
            join_all(rt, alloc, at_work)
        },
    )
}

//! One phase: a block of the run, worked at by threads.
ghost use Rattle.std.specs.Prelude.{◌≡◌, ◌≤◌, ◌<◌, All, IfSome};
ghost use Rattle.spec_case.specs.Blocks.{last_block};

use crate::assembling::{locked, mailboxes, next_pass, take_in_workers, unlocked, workers_of};
use crate::editing::PhaseEditor;
use crate::mailbox::Mailbox;
use crate::phase::Phase;
use crate::scoped::work;
use crate::shared::Shared;
use edge_io::Gate;
use pmd_board::Board;
use run_case::{Case, RunData};
use std::alloc::{AllocError, Global};
use std::marker::PhantomData;
use std::sync::atomic::AtomicU64;
use std::sync::{Condvar, Mutex, Wait};
use std::thread::Threads;
use table_publish::{Editor, Seer};
use table_versions::RunTables;
use upcall_queue::{Pass, UpcallQueue};

/// A run that workers decide, and the flow limit of its boards.
#[derive(Drop)]
pub struct WorkedRun<'a, C: Case> {
    pub data: &'a RunData<C>,
    pub flow_limit: u32,
    pub ghost limit: { flow_limit ≡ C.run.flow_limit },
}

/// What a phase has beside its editor and its boards: a seer for each handler and for the revalidator, a queue with its
/// passes, and how many workers of each kind there are.
#[derive(Drop)]
pub struct Means<'a, C: Case, T: RunTables<C>> {
    pub seers: Vec<Seer<C, T>>,
    pub queue: &'a UpcallQueue<C>,
    pub passes: Vec<Pass<C>>,
    pub workers: u8,
}

// Works at a block in threads, at boards in these locks and by news in these mailboxes. The seers are put back.
fn work_by_mailboxes<
    C: Case + Send + Sync,
    T: RunTables<C> + Send + Sync,
    P: Phase + Send + Sync,
    R: Threads + Wait + Sync,
    G: Gate + Sync,
>(
    rt: &R,
    alloc: Global,
    run: &WorkedRun<'_, C>,
    slot: &mut Option<PhaseEditor<C, T, P>>,
    means: &mut Means<'_, C, T>,
    locks: &[Mutex<Board<C>>],
    mailboxes: &[Mutex<Mailbox<C, T, P>>],
    block: u32,
    gate: &G,
) -> Result<(), AllocError>
    requires publication { All (λ s. s.publication ≡ P.publication) means.old.seers.items }
    requires queue { means.old.queue.now.name ≡ P.queue }
    requires passes { All (λ p. p.queue ≡ P.queue) means.old.passes.items }
    requires there { block ≤ last_block C.run }
    requires some { 0 < means.old.workers }
    ensures { All (λ s. s.publication ≡ P.publication) means.new.seers.items }
{
    let count = means.workers as usize;
    let receiving = AtomicU64::new(means.workers as u64);
    let editing = AtomicU64::new(1);
    let given = Condvar::new();
    let shared = Shared {
        run: run.data,
        locks,
        queue: means.queue,
        mailboxes,
        receiving: &receiving,
        editing: &editing,
        given: &given,
        workers: count,
        last: run.data.hi(block),
        of: PhantomData,
    };
    let team = workers_of::<C, T, P>(alloc, &mut means.seers, &mut means.passes, count)?;
    let team = work(rt, alloc, &shared, slot, team, gate)?;
    let mut first = next_pass::<C, P>(&mut means.passes)?;
    take_in_workers(rt, means.queue, &mut first, team, &mut means.seers)
}

// Works at a block in threads, at boards in these locks. The seers are put back.
fn work_at_locks<
    C: Case + Send + Sync,
    T: RunTables<C> + Send + Sync,
    P: Phase + Send + Sync,
    R: Threads + Wait + Sync,
    G: Gate + Sync,
>(
    rt: &R,
    alloc: Global,
    run: &WorkedRun<'_, C>,
    slot: &mut Option<PhaseEditor<C, T, P>>,
    means: &mut Means<'_, C, T>,
    locks: &[Mutex<Board<C>>],
    block: u32,
    gate: &G,
) -> Result<(), AllocError>
    requires publication { All (λ s. s.publication ≡ P.publication) means.old.seers.items }
    requires queue { means.old.queue.now.name ≡ P.queue }
    requires passes { All (λ p. p.queue ≡ P.queue) means.old.passes.items }
    requires there { block ≤ last_block C.run }
    requires some { 0 < means.old.workers }
    ensures { All (λ s. s.publication ≡ P.publication) means.new.seers.items }
{
    // What is owned here is lent to all that can fail: a proof goes through its drop at each end.
    let boxes = mailboxes::<C, T, P>(alloc, means.workers as usize + 1)?;
    let worked = work_by_mailboxes(
        rt,
        alloc,
        run,
        slot,
        means,
        locks,
        boxes.as_slice(),
        block,
        gate,
    );
    drop(boxes);
    worked
}

// Works at a block in threads. The seers are put back, and the boards are those that come out of their locks.
fn work_in_threads<
    C: Case + Send + Sync,
    T: RunTables<C> + Send + Sync,
    P: Phase + Send + Sync,
    R: Threads + Wait + Sync,
    G: Gate + Sync,
>(
    rt: &R,
    alloc: Global,
    run: &WorkedRun<'_, C>,
    slot: &mut Option<PhaseEditor<C, T, P>>,
    means: &mut Means<'_, C, T>,
    boards: Vec<Board<C>>,
    block: u32,
    gate: &G,
) -> Result<Vec<Board<C>>, AllocError>
    requires publication { All (λ s. s.publication ≡ P.publication) means.old.seers.items }
    requires queue { means.old.queue.now.name ≡ P.queue }
    requires passes { All (λ p. p.queue ≡ P.queue) means.old.passes.items }
    requires there { block ≤ last_block C.run }
    requires some { 0 < means.old.workers }
    ensures { All (λ s. s.publication ≡ P.publication) means.new.seers.items }
{
    let locks = locked(alloc, boards)?;
    work_at_locks(rt, alloc, run, slot, means, locks.as_slice(), block, gate)?;
    unlocked(alloc, locks)
}

/// Works at a block in threads, under a name of the publication and the queue. The editor comes back, the seers are put
/// back, and the boards are those that come out of their locks.
///
/// The only error is out of memory.
pub fn work_at_block<
    C: Case + Send + Sync,
    T: RunTables<C> + Send + Sync,
    P: Phase + Send + Sync,
    R: Threads + Wait + Sync,
    G: Gate + Sync,
>(
    rt: &R,
    alloc: Global,
    run: &WorkedRun<'_, C>,
    editor: Editor<C, T>,
    means: &mut Means<'_, C, T>,
    boards: Vec<Board<C>>,
    block: u32,
    gate: &G,
) -> (Option<Editor<C, T>>, Result<Vec<Board<C>>, AllocError>)
    requires editor { editor.publication ≡ P.publication }
    requires publication { All (λ s. s.publication ≡ P.publication) means.old.seers.items }
    requires queue { means.old.queue.now.name ≡ P.queue }
    requires passes { All (λ p. p.queue ≡ P.queue) means.old.passes.items }
    requires there { block ≤ last_block C.run }
    requires some { 0 < means.old.workers }
    ensures { IfSome result.0 (λ e. All (λ s. s.publication ≡ e.publication) means.new.seers.items) }
{
    let mut slot = Some(PhaseEditor {
        editor,
        of: PhantomData,
    });
    let worked = work_in_threads::<C, T, P, R, G>(
        rt, alloc, run, &mut slot, means, boards, block, gate,
    );
    match slot {
        Some(PhaseEditor { editor, of: _ }) => (Some(editor), worked),
        None => (None, worked),
    }
}

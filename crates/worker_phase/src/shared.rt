//! What the workers of a phase share.
ghost use Rattle.std.specs.Prelude.{◌≡◌, ◌<◌, ◌≤◌, ◌*◌};
ghost use Rattle.rx_worker.specs.declared.looking.TheConstants.{BATCH_SIZE};
ghost use Rattle.spec_input.specs.Words.{most_workers};

use crate::mailbox::{Mailbox, learn};
use crate::phase::Phase;
use pmd_board::Board;
use run_case::{Case, RunData};
use std::marker::PhantomData;
use std::sync::atomic::{AtomicU64, Ordering};
use std::sync::{Condvar, Mutex, Wait};
use std::thread;
use std::time::Duration;
use table_publish::Seer;
use table_versions::RunTables;
use upcall_queue::UpcallQueue;

/// In how many turns of waiting a worker yields. In later ones it sleeps.
const YIELDS: u32 = 16;

/// How long a worker sleeps at most that is woken by what it waits for, and one that isn't, in microseconds. No worker
/// sleeps for longer, so none depends on being woken.
const LONGEST_SLEEP: u64 = 1000;

const SHORTEST_SLEEP: u64 = 50;

/// How many upcalls wait at most for each receive worker: four batches.
const QUEUED_EACH: usize = 128;

/// How many upcalls wait at most where there are so many receive workers.
pub fn most_queued(workers: usize) -> usize
    requires { 0 < workers }
    ensures some { 1 ≤ result }
    ensures batches { workers ≤ most_workers → BATCH_SIZE * workers ≤ result }
{
    QUEUED_EACH.saturating_mul(workers)
}

/// What the workers of a phase share: the run, a lock for each port's board, the queue of upcalls, a mailbox for each seer,
/// and who hasn't ended yet.
#[derive(Drop)]
pub struct Shared<'a, C: Case, T: RunTables<C>, P: Phase> {
    pub run: &'a RunData<C>,
    pub locks: &'a [Mutex<Board<C>>],
    pub queue: &'a UpcallQueue<C>,
    pub mailboxes: &'a [Mutex<Mailbox<C, T, P>>],
    /// How many receive workers haven't ended.
    pub receiving: &'a AtomicU64,
    /// 1 until the editor has ended, then 0.
    pub editing: &'a AtomicU64,
    /// Notified when upcalls were given, and when a receive worker has ended.
    pub given: &'a Condvar,
    /// How many workers of each kind there are.
    pub workers: usize,
    /// The last version of the phase's block.
    pub last: u32,
    pub of: PhantomData<P>,
    ghost queue_is: { queue.now.name ≡ P.queue },
    ghost some: { 0 < workers },
}

// A turn of waiting for what no notification tells. The sleep ends early where the word changes and is woken.
fn nap<R: Wait>(rt: &R, word: &AtomicU64, turn: u32) {
    if turn < YIELDS {
        thread::yield_now();
    } else {
        let seen = word.load(Ordering::SeqCst);
        word.park_timeout(
            rt,
            (seen & 0xffff_ffff) as u32,
            Duration::from_micros(SHORTEST_SLEEP),
        );
    }
}

impl<C: Case, T: RunTables<C>, P: Phase> Shared<'_, C, T, P> {
    /// Whether all receive workers have ended. From then on nothing is put into the queue.
    pub fn all_received(&self) -> bool {
        self.receiving.load(Ordering::SeqCst) == 0
    }

    /// A receive worker has ended.
    pub fn end_receiving(&self) {
        self.receiving.fetch_sub(1, Ordering::SeqCst);
        self.given.notify_all();
    }

    /// The editor has ended.
    pub fn end_editing(&self) {
        self.editing.store(0, Ordering::SeqCst);
        self.editing.wake_all();
    }

    /// A turn of waiting for upcalls. There were so many notifications before none was found.
    pub fn wait_for_upcalls<R: Wait>(&self, rt: &R, turn: u32, seen: u64) {
        if turn < YIELDS {
            thread::yield_now();
        } else {
            self.given
                .sleep(rt, seen, Duration::from_micros(LONGEST_SLEEP));
        }
    }

    /// A turn of waiting until handlers have taken upcalls.
    pub fn wait_for_handlers<R: Wait>(&self, rt: &R, turn: u32) {
        nap(rt, self.receiving, turn)
    }

    /// A turn of waiting for the editor.
    pub fn wait_for_edits<R: Wait>(&self, rt: &R, turn: u32) {
        nap(rt, self.editing, turn)
    }

    /// Whether the editor has ended.
    pub fn all_edited(&self) -> bool {
        self.editing.load(Ordering::SeqCst) == 0
    }

    /// The seer with what was told to it, in the mailbox of this number.
    pub fn told<R: Wait>(&self, rt: &R, mailbox: usize, seer: Seer<C, T>) -> Seer<C, T>
        requires { seer.publication ≡ P.publication }
        ensures { result.publication ≡ P.publication }
    {
        match self.mailboxes.get(mailbox) {
            Some(mailbox) => learn(rt, mailbox, seer),
            None => seer,
        }
    }
}

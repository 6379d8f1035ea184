//! What the workers of a run keep from phase to phase.
ghost use Rattle.std.specs.Prelude.{◌≡◌, ◌≤◌, All, IfSome, IsTrue};
ghost use Rattle.std.specs.List.{list_all};
ghost use Rattle.spec_case.specs.Blocks.{last_block};
ghost use Rattle.spec_tables.specs.Edits.{has_sound_actions};
ghost use Rattle.spec_input.specs.Words.{most_workers};

use crate::shared::most_queued;
use crate::working::{Means, WorkedRun, work_at_block};
use edge_io::Gate;
use pmd_board::Board;
use run_case::Case;
use std::alloc::{AllocError, Global};
use std::marker::Brand;
use std::sync::Wait;
use std::thread::Threads;
use table_publish::{Editor, Seer, publish};
use table_versions::{RunTables, Tables};
use upcall_queue::{Pass, UpcallQueue};

/// How many workers of each kind a run has, the editor of its tables, and a seer of them for each handler and for the
/// revalidator. End it by `end`.
pub struct WorkerPool<C: Case, T: RunTables<C>> {
    editor: Editor<C, T>,
    seers: Vec<Seer<C, T>>,
    workers: u8,
    ghost of_editor: { All (λ s. s.publication ≡ editor.publication) seers.items },
    ghost few: { (1 ≤ workers) × (workers ≤ most_workers) },
}

// The pool after a phase, and the boards that the phase left.
fn after_phase<C: Case + Send + Sync, T: RunTables<C> + Send + Sync, R: Wait>(
    rt: &R,
    editor: Option<Editor<C, T>>,
    seers: Vec<Seer<C, T>>,
    workers: u8,
    worked: Result<Vec<Board<C>>, AllocError>,
) -> Result<(WorkerPool<C, T>, Vec<Board<C>>), AllocError>
    requires of_editor { IfSome editor (λ e. All (λ s. s.publication ≡ e.publication) seers.items) }
    requires few { (1 ≤ workers) × (workers ≤ most_workers) }
{
    // The editor is always back; no contract can say so of what a thread leaves.
    let Some(editor) = editor else {
        return Err(AllocError);
    };
    let pool = WorkerPool {
        editor,
        seers,
        workers,
    };
    match worked {
        Ok(boards) => Ok((pool, boards)),
        Err(e) => {
            pool.end(rt);
            Err(e)
        }
    }
}

impl<C: Case + Send + Sync, T: RunTables<C> + Send + Sync> WorkerPool<C, T> {
    /// So many workers, and tables without a rule. The only error is out of memory.
    pub fn new<R: Wait>(
        rt: &R,
        alloc: Global,
        store: T::Store,
        workers: u8,
    ) -> Result<WorkerPool<C, T>, AllocError>
        requires sound { IsTrue (list_all has_sound_actions C.run.edits) }
        requires workers { (1 ≤ workers) × (workers ≤ most_workers) }
    {
        let (editor, seers) = publish(rt, alloc, store, workers as usize + 1)?;
        Ok(WorkerPool {
            editor,
            seers,
            workers,
        })
    }

    /// Works at a block of the run in threads. The boards are those that come out of their locks.
    ///
    /// The only error is out of memory, and then workers and boards are given up.
    pub fn work<R: Threads + Wait + Sync, G: Gate + Sync>(
        self,
        rt: &R,
        alloc: Global,
        run: &WorkedRun<'_, C>,
        boards: Vec<Board<C>>,
        block: u32,
        gate: &G,
    ) -> Result<(WorkerPool<C, T>, Vec<Board<C>>), AllocError>
        requires { block ≤ last_block C.run }
    {
        let count = self.workers as usize;
        let (queue, passes) = match UpcallQueue::new(alloc, most_queued(count), 2 * count + 1) {
            Ok(made) => made,
            Err(e) => {
                self.end(rt);
                return Err(e);
            }
        };
        let worked = self.work_through(rt, alloc, run, &queue, passes, boards, block, gate);
        drop(queue);
        worked
    }

    // The same through a queue with these passes.
    fn work_through<R: Threads + Wait + Sync, G: Gate + Sync>(
        self,
        rt: &R,
        alloc: Global,
        run: &WorkedRun<'_, C>,
        queue: &UpcallQueue<C>,
        passes: Vec<Pass<C>>,
        boards: Vec<Board<C>>,
        block: u32,
        gate: &G,
    ) -> Result<(WorkerPool<C, T>, Vec<Board<C>>), AllocError>
        requires passes { All (λ p. p.queue ≡ queue.now.name) passes.items }
        requires there { block ≤ last_block C.run }
    {
        let WorkerPool {
            editor,
            seers,
            workers,
        } = self;
        let mut means = Means {
            seers,
            queue,
            passes,
            workers,
        };
        let (editor, worked) = work_at_block::<C, T, Brand, R, G>(
            rt, alloc, run, editor, &mut means, boards, block, gate,
        );
        let Means { seers, passes, .. } = means;
        drop(passes);
        after_phase(rt, editor, seers, workers, worked)
    }

    /// The tables of a version, if that is the one that was published last. After a phase that is the last version of its
    /// block, where there was memory for it.
    pub fn tables_of(&self, version: u32) -> Option<&Tables<C, T>>
        ensures { IfSome result (λ t. t.now ≡ version) }
    {
        if self.editor.version() == version {
            Some(self.editor.tables())
        } else {
            None
        }
    }

    /// Ends the publishing of tables.
    pub fn end<R: Wait>(self, rt: &R) {
        let WorkerPool {
            editor,
            seers: _,
            workers: _,
        } = self;
        editor.end(rt);
    }
}

//! A phase: a block of a run, worked at by threads.
//!
//! # What?
//!
//! A switch doesn't look frames up, translate them and keep its caches right in one thread. In Open vSwitch PMD threads
//! poll the ports, handlers translate what no cache knows, revalidators go over the megaflows when flows change, and the
//! flows change while all of that goes on. Here each block of a run is a *phase* of such threads. With N workers it has N
//! *receive workers*, N *handlers*, a *revalidator*, and an *editor*, which publishes the bundles of the block. They meet in a
//! lock round each port's board, in a queue of upcalls, and in published tables.
//!
//! # What is promised
//!
//! A `WorkerPool` takes boards to a block of a `WorkedRun` and gives boards back. They are boards of the run, whose journals
//! are legal, by their type; which boards they are, and how far they have come, no contract says. The only error is out of
//! memory.
//!
//! Between phases the pool lends the tables that it published last, to whoever names their version (`tables_of`).
//!
//! By its bounds the call may wait, so that it returns is no part of what is proved; nor is which thread took a step, and
//! whether frames were decided by workers at all or at the end of their block. That is tested.
//!
//! # How
//!
//! What comes out of a lock, or from a thread, is known by its type alone. That is enough: a board's journal is legal by its
//! type, whoever had it, and whoever ends the phase tests whether the boards are those of the block (`worker_run`). So no
//! proof follows what the threads do.
//!
//! - The types of what workers hand on have a name of the **phase** (`phase`), by which they are of its queue and of its
//!   tables. Editor and seers stay from phase to phase (`pool`).
//! - A **receive worker** (`receiving`) polls its ports one after the other, each until its block is looked up, so that the
//!   caches of one port stay in the processor's. The port at place q belongs to the worker q mod N.
//! - A **handler** (`handling`) takes its share of the upcalls that wait, and those of one port have one lock for their
//!   settles. No lock is held from a translation to its use: what has grown old meanwhile the board refuses. A handler ends
//!   where the queue is empty after all receive workers have ended.
//! - The **editor** (`editing`) publishes the block's bundles in order, and puts news of each version into the mailbox of
//!   each seer (`mailbox`).
//! - The **revalidator** (`revalidating`) makes a sweep of each board, and another where a newer version was told meanwhile.
//! - **Threads** (`scoped`) are started in this order: receive workers, editor, handlers, revalidator. Each tells the gate that
//!   it begins, and which it is. Where none can be made, the calling thread does the work at once.
//! - At the **end** (`assembling`) the calling thread takes in the passes and pops what is left in the queue.
//!
//! A look takes a fraction of the time of a translation. Receive workers that know no brake would look the whole block up in
//! a moment: each frame of a new flow would miss, the queue would be full, and what it refuses is left to the end of the
//! block, where one thread settles it. So a receive worker waits while the queue has no room for a batch of each worker;
//! handlers keep up, and later frames of a flow find what the first one had installed. It waits a bounded number of turns
//! and then goes on, so that nothing depends on a handler. The revalidator waits until the last version of its block is
//! told, or the editor has ended: then its first sweep is mostly the only one.
//!
//! Who waits yields a few times and then sleeps (`shared`), so that processors are left to those that have work. Each sleep
//! is short and ends by itself. A handler is woken before, where upcalls are given; but nothing depends on that either.
//!
//! # What is left to others
//!
//! Who keeps the tables (`RunTables` of `table_versions`), what a batch, an upcall and a sweep do to a board (`rx_worker`,
//! `upcall_handler`, `revalidator`), the queue and the tables that threads share (`upcall_queue`, `table_publish`), and what
//! comes of the boards that a phase gives back (`worker_run`).
#![tactic(auto)]

mod assembling;
mod editing;
mod handling;
mod mailbox;
mod phase;
mod pool;
mod receiving;
mod revalidating;
mod scoped;
mod shared;
mod working;

pub use pool::WorkerPool;
pub use working::WorkedRun;

//! Receive workers: they look up the frames of ports, a batch at a time.
//!
//! # What?
//!
//! Frames of a port come in faster than one at a time, and a thread that takes a port's board takes it for a batch of them.
//! `look_batch` looks up the next frames of the block that a board is in, 32 of them or as many as are left. `poll_batch`
//! does so with a board that threads share: it takes the lock for the one batch, lets go of it, and then gives the upcalls
//! of the frames that the caches missed. (Open vSwitch's PMD threads take 32 packets a time from a receive queue;
//! netdev_rxq_recv and NETDEV_MAX_BURST.)
//!
//! # What is promised
//!
//! - `look_batch` appends looks of the next places to the board's journal and nothing else, each of them legal where it
//!   stands. Their number is the lesser of 32 and what was left of the block, and the answer says which of them were
//!   misses.
//! - `poll_batch` gives upcalls of frames of one port of the run, in the order of their places and each at most once, all
//!   within as many places as it looked up. It says how many were taken and how many refused; one is refused only where the
//!   count of refusals rose. What the board had and has behind its lock no contract can say. That a batch changes it by
//!   looks alone is said by `look_batch`, which is all that is done under the lock.
//! - No call takes memory.
//!
//! # How
//!
//! A place of the board's block that is next is never refused: all places of earlier blocks were looked up before the
//! block was opened (`proofs/Reached`). So a batch has as many looks as it was to have, and no answer of the board is
//! tested. Which looks were misses is a number of 32 bits, which needs no memory while the lock is held.
//!
//! # What is left to others
//!
//! Threads, and which worker polls which port: a worker polls its ports in turns until their blocks are looked up. Whether
//! to poll while the queue has little room. And a frame whose upcall was refused: it stays pending until the block is
//! finished.
#![tactic(auto)]

mod batch;
mod looking;
mod polling;

pub use batch::{Batch, Polled};
pub use looking::{BATCH_SIZE, look_batch};
pub use polling::poll_batch;
pub use upcall_queue::upcalls::{Upcall, Upcalls};

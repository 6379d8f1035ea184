//! The board of one ingress port: its caches, and the journal of what was done to them.
//!
//! # What?
//!
//! A frame that comes in is looked up in the caches of its port: by its whole key in the exact-match cache, and then among
//! the megaflows. Where they don't know it, it waits for an upcall, is translated through the flow tables and then settled,
//! which may install a megaflow. When the tables change, a sweep revalidates each megaflow by a new translation of its key.
//! All this happens in steps, and a *board* takes them: `look`, `settle`, `begin`, `put`, `end`, `open_block`. (Pfaff et
//! al., "The Design and Implementation of Open vSwitch", NSDI 2015; its threads are Open vSwitch's PMD threads, and its
//! sweeps those of the revalidators.)
//!
//! # What is promised
//!
//! A board is seen as its port, its limit and its journal (`specs/BoardView`), and the journal says all: `spec_board`
//! defines the state that it leads to, where a megaflow is called an *entry*.
//!
//! - Each call appends exactly its step, which is legal there, or refuses and leaves the board. A refusal comes exactly
//!   where `spec_board` has it, as the first of its causes and with the numbers that it carries. Out of memory alone is
//!   free, and only `new`, `settle` and `begin` take any.
//! - A journal is legal whatever calls were made and whatever the flow limit is, and so the laws of boards hold of it
//!   (`board_laws`). Those that callers need are one record, `IsLawful`, and a clause of each call that changes caches or
//!   tells of them. No key is covered by two megaflows, and each has the actions and visits of a plain scan under its
//!   version, for every clean key that it covers; a slot of the exact-match cache that names a live megaflow names one
//!   that covers the slot's key. Each decided frame was decided by exactly one step, with the actions of a
//!   plain scan of a version in its window. Versions stand in order, and what a rule was credited with and what megaflows
//!   owe it are together what it is due.
//!
//! # How
//!
//! The type keeps that the journal is legal, and that the fields are those of the state that it leads to, part by part
//! (`specs/Fields`): the versions, the places, the caches, and what they need besides. A step changes some fields and
//! pushes itself onto the journal, and the proof of a step says for each part that it still fits. What the laws say of the
//! state is a part too, which follows from the legal journal, whatever the step.
//!
//! The caches are `port_caches`: megaflows, the exact-match cache, totals, and the lists of actions, which decided places
//! name by their place among them. What a sweep has yet to put is a queue of numbers in rising order (`sweep_list`). Room
//! for all looks and openings, and where a sweep runs for its puts and its end, is kept at any time, so these take no
//! memory. No count overflows: what a rule is due is at most a packet for each frame and lookup, with 2^32 frames, 2^9
//! lookups and 2^18 bytes a frame at most.
//!
//! A look hashes the frame's key once at most, though it may both ask the exact-match cache and put the key there; and
//! most keys that this cache has, it doesn't hash.
//!
//! # What is left to others
//!
//! Translation, and which step is taken when: a board refuses what isn't legal and chooses nothing.
#![tactic(auto)]

mod board;
mod place;
mod refusals;
mod steps;
mod sweep_list;
mod threads;

pub use board::Board;
pub use board_steps::{EntryNumbers, Settled, Step};
pub use port_caches::{Megaflows, Revalidated, Totals};
pub use run_xlate::Xlated;
pub use spec_board::{
    BeginFault, EndFault, LookFault, Looked, OpenFault, PutDone, PutFault, SettleFault,
};

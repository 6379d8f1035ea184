//! Files and text in memory: for tests, for proofs about runs that nothing disturbs, and for bytes that are made rather
//! than read from files.
//!
//! # What?
//!
//! `edge_io` says by traits what a shelf of files and a sink of text are. Those of this crate keep all in memory, and
//! tell everything: what they hold, what was read, and what was written.
//!
//! - `MemoryShelf` and `MemorySink` fail exactly at the calls whose numbers they were given, so that a test can try
//!   each call of a run in turn.
//! - `SteadyShelf` and `SteadySink` never fail: their counts of faults are 0 for good. Over them a run can be proved to
//!   give its one right answer, if there is memory.
//! - `FixedSink` takes all its memory as it is made. So it is never out of memory, and fails exactly where a write is
//!   longer than the room that is left: of a text that is printed to it and raises no count nothing is left out.
//!
//! # What is promised
//!
//! - Each call does what its trait says, and tells exactly what it did.
//! - A call of `MemoryShelf` or `MemorySink` is a fault where its number is among those given, or it opens a name that
//!   isn't there, and nowhere else. Out of memory alone is free.
//! - Every name that a `SteadyShelf` wasn't given is an empty file.
//! - `made` and `text` lend what was written: the closed files in the order of their closing, and the bytes of a text.
//!
//! # How
//!
//! Both shelves are over a `Folder`, which holds the given files, those that were made, and the one in use. Room for a
//! created file among those that were made is taken as it is created, so that closing it takes no memory. Files are
//! found one after the other: tests have few.
//!
//! # What is left to others
//!
//! What the files mean, and the system's files and standard output (`real`). Of a program that reads files and writes
//! them, nothing is kept here but what it makes itself and reads as if it were files.

mod calls;
mod fixed_sink;
mod folder;
mod memory;
mod memory_sink;
mod steady;

pub use fixed_sink::FixedSink;
pub use memory::MemoryShelf;
pub use memory_sink::MemorySink;
pub use steady::{SteadyShelf, SteadySink};

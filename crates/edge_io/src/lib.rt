//! The outside: files, text that is said, and the points at which a run can be held.
//!
//! Everything else computes on values. What comes from the system or goes to it passes through the three
//! traits of this crate, so that one proof of a run holds for real files and for files in memory.
//!
//! # Why a call may fail
//!
//! Nobody can prove that a disk works, but a program that merely says that it doesn't must not pass for a
//! proved one. So a *shelf*, which holds files, counts its failed calls, those of reading and those of
//! writing, and a *sink*, which takes text, counts its own. A call that answers `Failed::Fault` raises the
//! count of its kind by one and leaves the other; every other answer leaves both. `open_file`, `read` and the
//! close of an opened file are of reading, `create_file`, `write` and the close of a created one of writing.
//! The counts are known to contracts alone: a caller can't read them. So whoever ends well is known to have
//! met no fault, also none that it hid or tried again, and whoever tells a fault met one of that kind.
//! A count is a number of 64 bits and stands still at its end, where it counts as risen.
//!
//! Out of memory is an answer of its own, which no count explains, and takes no byte. A kind of sink says by
//! `needs_memory` whether it may come: where it can't, and the count didn't rise, all was said.
//!
//! # What is told
//!
//! No contract can say what a disk holds. A shelf says by `tells` whether it tells its bytes; if so, `told`
//! is the contents that it holds by name, what is left of the opened file, the files that were written and
//! closed, what was written to the created file, the name that was last asked for, and the names that were
//! asked for to be read, in their order. Each call is one change of that record, after a refusal too: a fault
//! may take a prefix of the bytes, out of memory takes none. So "the files written are exactly these" is one
//! equation, and the name of a refused file is known. With that name `counts_at_last` keeps the counts as they
//! were before it was asked for, so that no fault of an earlier file passes for one of that file.
//! A sink that tells says which bytes were written.
//!
//! # Which file is in use
//!
//! At most one is, an opened or a created one, and each call says which it needs and leaves: reading needs
//! an opened file, writing a created one, opening and creating none. `close_file` leaves none whatever it
//! answers. After `read_all` none is, whatever it answers.
//!
//! # The parts
//!
//! - `read_all` reads a whole file up to a number of bytes, in large pieces into one buffer; `write_all` and
//!   `say_all` repeat a write until all is taken. The traits' calls take as many bytes as suits them.
//! - `write_file` creates a file, has a closure fill it, and closes it. What a writer promises is one word,
//!   `WritesAll` for a piece and `WritesFile` for a file, and the bytes of pieces in turn are those of all.
//! - `FaultCounts` and `counted_fault` are for whoever has a shelf or a sink: they count as the traits ask.
//! - A `Gate` is told of points at which threads meet, and may hold them, so that a test picks the order.
//!   It promises nothing. `OpenGate` returns at once.
//!
//! Left to others: the system's files and standard output (`real`), files and text in memory for tests
//! (`memory`), which files are read and written, in which order, what their bytes mean, and which text
//! a refusal becomes.
//!
//! Files and text in memory stand in `memory`, those of the system in `real`.
#![tactic(auto)]

mod counts;
pub mod memory;
mod outside;
mod reading;
pub mod real;
mod writing;

pub use counts::{FaultCounts, counted_fault};
pub use outside::{Failed, Gate, InUse, OpenGate, Point, Shelf, Sink, Worker};
pub use reading::{ReadFault, read_all};
pub use writing::{say_all, write_all, write_file};

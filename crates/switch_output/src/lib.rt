//! What is told of a run that was decided: its files, written to a shelf, and its summary, printed to a sink.
//!
//! # What?
//!
//! Once every frame is decided, `put_out` writes what the ports send, in the order of the words, then the dumps of rules, of
//! megaflows and of journals, then the flows, where they are asked for, and what the mirrors copy, and prints the summary. A
//! run that has no outlets, since a number made it, has its summary alone.
//!
//! # What is promised
//!
//! `spec_run` says which files a run has, by its journals, and which summary. On a shelf that tells its bytes exactly
//! these files are written after those that were there before, by name and byte, and on a sink that does exactly this
//! text is printed after them. Where writing fails or memory runs out, the files before are whole, one has a prefix of its
//! bytes or none, none after it is written, and nothing is printed; the refusal names the file, and the count of faults in
//! writing rose by one, after that file was asked for, or memory ran out and it stands. Where printing fails or memory
//! runs out there, all files are whole, and a prefix of the summary is printed.
//!
//! # How
//!
//! Each file has a name and a call of `egress_capture`, `flow_dump`, `netflow_v5` or `egress_capture::mirror` (`RunFile`), and one
//! function writes each of them. The filters that tell a port, or a mirror, which frames may be for it are made once, before
//! the first file: 4 bytes for each frame. What was written before is a list of whole files, to which each call adds one, and
//! the ways to be cut short go along (`proofs/Written`).
//!
//! # What is left to others
//!
//! That all frames are decided (`run_boards`, whose `Finished` has it as its type), what stands in each file and in the
//! summary, and what a refusal is told as.
#![tactic(auto)]

mod outlets;
mod output;
mod refusal;
mod run_file;
mod writing;

pub use outlets::Outlets;
pub use output::put_out;
pub use refusal::{OutputRefusal, WriteRefusal};

//! The files of the system and its standard output, behind the traits of `edge_io`.
//!
//! # What?
//!
//! `RealShelf` is a shelf whose names are paths, and `StdoutSink` a sink that prints. They are what a program hands to
//! a call that is proved over every shelf and every sink.
//!
//! # What is promised
//!
//! They tell nothing, since no contract can say what a disk holds. So they are proved to keep their counts of faults
//! and the file in use as the traits have it, and no more: each error of the system that a call answers is counted, and
//! no other. What they do is tried by tests.
//!
//! # How
//!
//! Reading goes to the system at once. Small writes are gathered in a buffer of std's, which goes out when it is full
//! or the file is closed. Standard output has no buffer. A call that a signal interrupts is made again.
//!
//! # What is left to others
//!
//! What the system finds out as it closes a file, or later, isn't seen. Which files are read and written is for the
//! caller.

mod real;

pub use real::{RealShelf, StdoutSink, TRIES, read_patiently, write_patiently};

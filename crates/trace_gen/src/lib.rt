//! The input that a number makes: a file of edits and four traces, for a switch at work without files of one's own.
//!
//! # What?
//!
//! `generate` takes a number of 32 bits, and makes of it the bytes of a file of edits and of four capture files, one for
//! each port from 1 to 4. The edits are a rule for each of 64 subnets, which puts a value into a register, a rule for each
//! of the 16 values, which sends to a port, and one that drops. The frames are UDP in IPv4, 5,000 at a port, and one comes
//! in each millisecond, at the four ports in turn.
//!
//! # What is promised
//!
//! `spec_input` says what a number makes, and this crate makes just that, byte by byte, or is out of memory. So the same
//! number makes the same bytes on every machine. The edits and the traces are within the limits of what a switch reads.
//!
//! # How
//!
//! Everything is drawn from one linear congruential generator, first for the subnets and then for the frames in the order
//! in which they come in. A trace is made on its own: the draws before its first frame are passed over, and then, after
//! each frame, those of the three frames at the other ports.
//!
//! # What is left to others
//!
//! Writing the bytes to files, or reading them (`edit_script`, `pcap_files::reader`).
#![tactic(auto)]

mod draws;
mod edits;
mod made;
mod packets;

pub use made::{Made, MadeTrace, generate};

//! The words that every other specification crate uses, and no code.
//!
//! - `Counts`: when a count of faults rose in a call.
//! - `Files`: files by name and bytes, and when a prefix of one was written.
//! - `Bytes`: numbers that stand in bytes, most or least significant byte first.
//! - `Bits`: the leading bits of a number of a given width.
//! - `Machine`: a journal of steps of any machine: when it is legal, and the state that it leads to.
//! - `Sorting`: a list in an order.
//!
//! Each word is as short as its meaning. Laws about them stand in the crates that need them, so that a new law proves
//! nothing again here; what every crate needs of a sorted list is in `proofs`.
#![tactic(auto)]

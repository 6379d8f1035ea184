//! The ports of a run, and the blocks into which sync points cut the traces of the ports.
//!
//! # What?
//!
//! The words name *ports*, each once. Sync points, which stand among the edits, cut each port's trace into *blocks*:
//! the frames before the first that isn't before a sync point's time are of an earlier block, and the others of a later
//! one. All here is found before a run has a name.
//!
//! # What is promised
//!
//! `spec_case` says where a block ends and which block a place is in. Every number is the one that it defines.
//!
//! - `Ports` are different and in the order of the words. `find` answers where a port stands, exactly where it is
//!   there.
//! - `all_block_ends` finds the last place of each block of each trace, and `block_of` the block of a place.
//! - The laws of blocks are lemmas (proofs/Blocks.antt): ends don't fall, the last block ends with the trace, and a
//!   place is in a block exactly where it stands after the end of the one before and not after its own.
//!
//! # How
//!
//! Where blocks end is found in one walk along a trace, once. The block of a place is then a count over as many ends as
//! there are blocks, and a port is found at the place of its number, or else by going through the ports: there are few of
//! both.
//!
//! # What is left to others
//!
//! The run as a whole, with its edits and its frames (`run_case`).

mod block_ends;
mod ports;

pub use block_ends::{BlockEnds, all_block_ends, block_of};
pub use ports::Ports;

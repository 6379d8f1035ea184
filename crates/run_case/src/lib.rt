//! One run of the switch, by a name that all values of the run share.
//!
//! # What?
//!
//! What a run is given is known only once it has been read: the ports of the words, the edits and the sync points of
//! their file, and a trace of each port. `RunData` holds it, but for what the edits make, which `table_versions::rules` holds.
//! Boards, tables and threads each keep a part of the run, and all must speak of the same one. A `Case` is the name by
//! which they do: `RunData<C>`, `Keyed<C>` and the types of the crates above are of the run `C.run`, and a contract
//! tells what they hold without another word.
//!
//! # What is promised
//!
//! `spec_case` says what a run is, and how sync points cut its edits and its traces into blocks. Every number that is
//! read here is the one that it defines.
//!
//! - A port's frames are those of its own trace, its blocks end where the definition has them end, and a block's bundles
//!   begin and end where the sync points stand.
//! - A `Keyed` is a frame of the run: its type keeps that the frame is there, and that key, length, time and block are
//!   that frame's.
//! - Reading takes no memory and can't fail. Only `RunData::new` takes some, 4 bytes for each block of each port, and
//!   then no run is made.
//!
//! # How
//!
//! The function that has read the files calls one function under the name `Brand`, and picks there what the name means;
//! below that call `C.run` is what was read. A name costs nothing when the program runs.
//!
//! Where a port's blocks end is found once (`blocks`). A port's trace is found by going through the ports, of which
//! there are few. Frames aren't copied, but lent from the bytes of their file, and so are the records of consecutive ones.
//!
//! # What is left to others
//!
//! Reading the files, and that they meet what `RunData::new` requires. The most entries of a cache and the steps of a
//! schedule are parts of `C.run`, but aren't held here: who keeps them ties them to it.
//!
//! Which frames are of which block stands in `blocks`.
#![tactic(auto)]

pub mod blocks;
mod case;
mod keyed;
mod run_data;
mod threads;

pub use crate::blocks::Ports;
pub use case::Case;
pub use keyed::Keyed;
pub use run_data::RunData;

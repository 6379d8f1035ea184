//! The flow tables of a run, version by version, whoever keeps them.
//!
//! # What?
//!
//! A run begins with empty tables, and each bundle of its edits makes the next version of them. Whoever carries a run
//! out needs of tables that they go on by the run's versions and translate packets; how they find a rule is nothing to
//! it. `RunTables` is the trait of what keeps the tables of a run, and `Tables<C, T>` are tables that `T` keeps. So
//! threads, boards and schedules are proved without a classifier, and beside it.
//!
//! # What is promised
//!
//! Contracts see `Tables` as a number, the version: how many bundles of the run led to it.
//!
//! - `new` is version 0, without rules.
//! - `advance` goes on to the next version, and `follow` to a given one. Where memory is wanting, `advance` leaves the
//!   version as it was, and `follow` stops at a version on the way.
//! - `translate` answers an `Xlated<C>` of the key and this version (`run_xlate`): what the tables make of a packet,
//!   and exactly the bits of the key that decide it.
//! - No call goes back to an older version or skips one, and none shows half a bundle.
//!
//! The only error is out of memory.
//!
//! # How
//!
//! What a `T` owes is the contract of its trait: it names what it is kept over, which has the rules of all versions and
//! is shared by all copies. `Tables` adds what all of them need alike, and the one view. A `NextVersion` is what is
//! told of a version where two copies of the tables are published: that each goes on to it.
//!
//! # What is left to others
//!
//! Keeping rules and finding them: `run_tables`. Handing versions to readers while the next one is made, and which
//! version a frame is due. That the actions of the edits are sound, as `new` requires: whoever reads the edits sees to
//! it.
//!
//! The rules of a run stand in `rules`.
#![tactic(auto)]

mod next_version;
pub mod rules;
mod tables;
mod threads;

pub use next_version::NextVersion;
pub use pipe_model::SpareLists;
pub use tables::{RunTables, Tables};

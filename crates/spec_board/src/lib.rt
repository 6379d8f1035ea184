//! What the caches of one ingress port do, step by step: the *board*.
//!
//! A frame is *looked up*: in an exact-match cache, then among the megaflows. Where neither knows it, it is *pending*
//! until its translation *settles* it, which decides it and may install a megaflow. A *sweep* begins at a version of
//! the tables, *puts* each entry under a version at least as new, and ends. Frames and edits come in *blocks*, which
//! are opened one after the other. (Pfaff et al., "The Design and Implementation of Open vSwitch", NSDI 2015, for the
//! caches and their revalidation; blocks and the versions of sweeps are this project's.)
//!
//! - `Steps`: the steps, each with its result; a *journal* is a list of them.
//! - `State`: what a board is, from its opening on.
//! - `Cache`: the slots of the exact-match cache.
//! - `Results`: what a look, a settle and a put give in a state.
//! - `Refusals`: what refuses a step, in which order.
//! - `Effects`: the state that a step leads to.
//! - `Journals`: when a journal is legal, what it leads to, and when it is complete.
//! - `Decisions`: which step decided a frame, the window of its version, and what each rule is due.
//! - `Counts`: what entries owe to a rule, and how that and its total come to what it is due.
//! - `Schedules`: boards under way, and how every run is finished, block by block.
//! - `GivenSteps`: what given steps do to boards, and which of them are not met.
//! - `Scheduled`: the schedule of a whole run, its given steps and then its end.
//! - `Texts`: a journal as text.
#![tactic(auto)]

mod faults;
mod looked;
mod put_done;

pub use faults::{BeginFault, EndFault, LookFault, OpenFault, PutFault, SettleFault};
pub use looked::Looked;
pub use put_done::PutDone;

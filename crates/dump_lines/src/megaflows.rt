//! Megaflows as the lines of a dump, after ovs-appctl(8) `dpctl/dump-flows`.
//!
//! # What?
//!
//! A dump of megaflows has a line for each: its port and number, the version of the tables that its actions are of, what it
//! decided and what of that its rules are still due, when it was last used, the rules that its translation visited, its
//! match and its actions. `push_megaflow` adds such a line, with a line feed, to a string, and `print_megaflow_match` the match
//! alone.
//!
//! # What is promised
//!
//! - The line is the one that `spec_run` gives the entry. The entry names its actions by a place among those of a board,
//!   so they are given beside it.
//! - It is asked of the actions that their values and masks are within the fields that they are written to, as those of
//!   every translation are (`action_text`).
//! - Out of memory is the only error, and then the string has what it had, and perhaps a part of the line after it.
//!
//! # How
//!
//! All is written straight to the end of the string, and no memory is taken beside it. The visits are gone through once: a
//! rule and how often it came in a row are kept until another one comes.
//!
//! # What is left to others
//!
//! Numbers (`text_numbers`), names and values of fields (`field_text`), datapath actions (`action_text`), and which entries
//! there are, in which order (`flow_dump`).

mod lines;
mod matches;
mod times;
mod visits;

pub use lines::push_megaflow;
pub use matches::print_megaflow_match;

//! The comparison of two files of edits: what the program does, as one call.
//!
//! `run_diff` reads two files of edits, and tells which packets the last versions of the one and of the other treat
//! differently. The outside is a *shelf* of files and a *sink* for text, which the caller hands in.
//!
//! # What is promised
//!
//! The contract of `run_diff` is one definition, `Ends` (specs/Ends.antt): the ways to end, by the status, and what
//! holds with each, in the words of `spec_tools::run`. What is said of files holds where the shelf tells its bytes, and
//! what is said of text where the sink does.
//!
//! - Where all is done, the verdict accepts the words and both files, and exactly the text of a difference is
//!   printed: of lines that are the `IsListed` of both switches. The status is 0 where there is none, and else 1.
//! - Every other status has its cause. An input is refused as the verdict refuses it, the first in the order of
//!   reading. A comparison is given up only where there is something left after as many cubes as are looked into. A
//!   fault in reading is told only where calls of reading failed, and of the last file that was opened, and one in
//!   printing only where exactly one call of printing failed; with every other status the counts stand.
//! - Nothing is written to the shelf, and no file is opened but both, OLD first, and NEW only where OLD is not
//!   refused.
//! - The text of a refusal is printed, and nothing else: all of it where the sink needs no memory and didn't fail,
//!   and else a prefix. Nothing is printed after a fault in printing classes.
//!
//! # How
//!
//! The words come first (`words`), then both files, which are read and refused as the switch does it
//! (`switch_input`). The text is made whole before any of it is printed, so a list that ends with status 1 is all of
//! it.
//!
//! # What is left to others
//!
//! Edits to `switch_input`, the comparison to `table_diff`, its lines to `class_list` and their text to `lines`, texts
//! and statuses that the switch has too to `switch_input::refusals`, and all that touches the system to `edge_io`.
//!
//! The lines of a difference stand in `lines`.
#![tactic(auto)]

mod inputs;
pub mod lines;
mod refusal;
mod run;
mod say;
mod status;
mod words;

pub use run::run_diff;
pub use switch_input::refusals::OUT_OF_MEMORY;

//! The laws of what is told: what a trace tells of a translation, and what a comparison of tables tells of runs.
//!
//! # What?
//!
//! `megatrace` tells what the flow tables do to one flow, and `megadiff` which packets two tables treat differently.
//! Neither sees a frame. Here stands what the words of the one say of a translation, and those of the other of the port
//! files of runs, which decide frames by caches, by workers, and under versions of their tables. Each fact is the
//! contract of a function that does nothing, so to call one is to have its facts.
//!
//! # What is promised
//!
//! *The rules that a trace finds are, in order, those that the translation visits* (`rules_found_are_those_visited`), for
//! every switch and every key. A rule that is found twice is visited twice, and a lookup that finds none visits none. So
//! it is too where a limit stops the translation and it sends nothing: what it visited by then stays.
//!
//! Of two runs with the same ports and the same traces, whose tables differ as the lines of a comparison tell
//! (`AreCompared`), and of whole journals of both that decide each frame under the tables that all edits make
//! (`AreByAllEdits`):
//!
//! - *Of a frame both runs decide what the first line says that has it; where that tells no difference, or none has
//!   it, they decide the same* (`frames_are_treated_as_lines_say`).
//! - *Where of none of the frames a difference is told, both runs send the same*
//!   (`runs_without_such_frames_are_alike`): the files of the ports are the same, what mirrors copy, and the flows.
//! - *So it is where nothing is listed* (`nothing_listed_changes_nothing`), whatever the traces are.
//!
//! Workers, steps that are given, flow limits and sync points may differ.
//!
//! # Premises
//!
//! That each frame is decided under the tables that all edits make is so of a run without workers, given steps and
//! sync lines; and of any run in which no block has both edits and frames, and none after that of a frame has edits
//! (`runs_by_all_edits`). Else the tables are not all that decides: a frame may come before an edit. The tables that
//! are compared are those that the edits of a file make (`files_make_the_tables`).
//!
//! # Which definitions this refuses
//!
//! A path that goes on where a list of actions has ended, or ends before it; that leaves out the lookup at the last
//! depth, or has one for which no lookup was left; that tells a lookup after those that it leads to, or another rule than
//! the winner. A translation that visits a rule after those that it leads to, or forgets its visits where it stops.
//!
//! A difference that says nothing of some key of a frame, or of a port; a line that is right of the key that it
//! shows, and not of each one that it holds; a cache that decides otherwise than the tables.
//!
//! # How
//!
//! From any state on, the visits after a lookup are those before it, followed by the rules found from there on. The proof
//! goes as the definitions do: by the depths that are left, and within a depth along the list of actions. No action but a
//! lookup visits a rule (`proofs/Visits`).
//!
//! A whole journal decides a frame as a plain translation of its key under the version, which is the last
//! (`proofs/Decided`). The key is one that the difference tells of: it is within the widths of its fields, metadata
//! and registers are 0, and it came in by a port that is listed once (`proofs/Keys`). What is written of frames is a
//! function of ports, traces and decisions (`proofs/Outputs`).
//!
//! # What is left to others
//!
//! Which rule wins is `winner` in both recursions; its laws are in `table_laws`. A visit has no table and no depth, so of
//! those the law says nothing, and nothing of lookups without a winner: worked rows of `spec_tools` show them. That a
//! program's trace is the one defined is the contract of `ofp_trace`, and that it credits by visits, that of boards.
//! That `megadiff` finds a difference, and that a run makes whole journals, are the contracts of what does. Rules,
//! their counts, megaflows and journals differ as the tables do.
#![tactic(auto)]

mod alike;
mod found;
mod premises;
mod treated;

pub use alike::{nothing_listed_changes_nothing, runs_without_such_frames_are_alike};
pub use found::rules_found_are_those_visited;
pub use premises::{files_make_the_tables, runs_by_all_edits};
pub use treated::frames_are_treated_as_lines_say;

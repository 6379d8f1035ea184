//! The flow tracer over files: what the program does, as one call.
//!
//! `run_trace` reads a file of edits and traces one flow through the tables that they make. The outside is a *shelf* of files
//! and a *sink* for text, which the caller hands in.
//!
//! # What is promised
//!
//! The contract of `run_trace` is one definition, `Ends` (specs/Ends.antt): the ways to end, by the status, and what holds
//! with each, in the words of `spec_tools`. What is said of files holds where the shelf tells its bytes, or no file is read,
//! since the words are refused; and what is said of text where the sink tells it.
//!
//! - Where all is done, the verdict accepts the words, the edits and the flow, and exactly the text of the trace is printed:
//!   that of every lookup that the plain translation makes under the rules of the last version, of the key at its end, of
//!   the bits that it consults, and of the datapath actions.
//! - Every other status has its cause. An input is refused as the verdict refuses it, the first in the order of reading. A
//!   fault in reading is told only where calls of reading failed, and of the file of edits, and one in printing only where
//!   exactly one call of printing failed; with every other status the counts stand.
//! - Nothing is written to the shelf, and no file is opened but that of the edits, and that only where the words are taken.
//! - The text of a refusal is printed, and nothing else: all of it where the sink needs no memory and didn't fail, and else
//!   a prefix. Nothing is printed after a fault in printing the trace.
//! - What is accepted and meets no fault is traced, unless memory runs out. Words that are refused end with their status,
//!   and others never do, with every shelf.
//! - No file is left in use.
//!
//! # How
//!
//! The words come first (`words`), then the edits, which are read and refused as the switch does it (`switch_input`), then
//! the flow (`flow`) and its port (`inputs`). The rules stand in the store of all versions. The packet is traced through
//! tables of the last version of it (`run`), which tell which rules win; their matches, priorities and actions are read in
//! the store. The text is made whole before any of it is printed, so that memory which runs out in tracing leaves nothing
//! printed but that.
//!
//! # What is left to others
//!
//! Edits to `switch_input`, matches to `match_text`, the trace to `ofp_trace`, its text to `ofp_trace::lines`, texts and statuses
//! that the switch has too to `switch_input::refusals`, and all that touches the system to `edge_io`.
#![tactic(auto)]

mod flow;
mod inputs;
mod refusal;
mod run;
mod say;
mod status;
mod words;

pub use run::run_trace;
pub use switch_input::refusals::OUT_OF_MEMORY;

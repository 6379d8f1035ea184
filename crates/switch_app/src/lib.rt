//! The switch over traces: what the program does, as one call.
//!
//! `run_switch` reads a file of edits, perhaps a steps file and a mirrors file, and the traces of its ports, decides every frame,
//! writes a capture file for each port, dumps of what stands then, and where they are asked for the flows of the frames and
//! what mirrors copy of them, and prints a summary. The outside is a *shelf* of files and
//! a *sink* for text, which the caller hands in: real ones in the program, and in tests ones in memory that fail when they
//! are told to.
//!
//! # What is promised
//!
//! The contract of `run_switch` is one definition, `Ends` (specs/Ends.antt): the ways to end, by the status, and what
//! holds with each, in the words of the specification crates, chiefly `spec_run`. What is said of names, bytes and the
//! verdict holds where they are known: the shelf, or the sink, tells them, or no file is read, since the words are refused or
//! have a number.
//!
//! - Where all is done, the verdict accepts the words and the files, and the files written are exactly those of the
//!   run: one for each port, in the order of the words, after them its rules, its megaflows and its journals, then its flows,
//!   where they are asked for, and one for each mirror. Exactly its summary is printed. Where a number makes what is read,
//!   the summary is all.
//! - There is a journal for each port. Without workers they are those of the run's schedule: the given steps that are met, and
//!   then what is left. With workers they are those that threads made. Each is legal and complete: each step is one that may be taken where it stands and has the result that it has there,
//!   exactly one of them decides each frame of the port's trace, and at the end a sweep of the last version is completed.
//! - A frame is decided as a plain priority scan of one version of the tables decides it; each bundle of edits makes one. That
//!   version is in the frame's *window*: it is of the frame's block, which lies between two sync points, it is no older than
//!   the last sweep completed before, and no newer than the newest version that the board had carried. Where no block has
//!   both edits and frames, it is the last of the frame's block, with any number of workers.
//! - The bytes of a port's file are those of the frames that these decisions send there, in the order of time, ingress
//!   port and place.
//! - The flows are those of the IPv4 packets that came in, with the first port to which these decisions send each flow's first
//!   packet. A mirror has of each frame, in the same order, the frame as it came in, or else the first of the bytes that the
//!   decision sends to one of its ports, or nothing: at most one copy. Neither is a part of the run, so that no journal and no
//!   decision is another for them.
//! - Every other status has its cause. An input is refused as the verdict refuses it. A fault in reading is told only
//!   where calls of reading failed, and one in writing only where exactly one call of writing, or of printing the summary,
//!   did; with every other status the counts of the shelf stand. So no fault is passed over, and none is told where no
//!   call failed. That memory ran out is no part of the proof.
//! - Files are opened only to read the edits, the steps, the mirrors and then the traces, each once, and only where none before
//!   it is refused.
//! - Nothing is written before the run is accepted. Where writing fails or memory runs out, the files before are whole,
//!   one has a prefix of its bytes, and none after it is written.
//! - The text of the status is printed, and nothing else: all of it where the sink needs no memory and didn't fail, and
//!   else a prefix. Nothing is printed after a fault in printing the summary.
//! - A run that is accepted and meets no fault is done, unless memory runs out. Words that are refused end with their status,
//!   and others never do, with every shelf.
//! - No file is in use after a run that is done, a refusal, or a fault in reading or in printing.
//!   One in which writing failed may be.
//!
//! # How
//!
//! Reading comes first and whole (`switch_input`). What was read is one run, and `decide_and_tell` has it as its type
//! parameter: every board, and every fact of a board, speaks of it.
//!
//! Without workers each port's board takes the given steps and is then run to its end, which decides every frame; it keeps
//! as many megaflows at most as the words say. The tables follow the bundles meanwhile. With workers threads do all of this
//! (`decider` has both). Only then files are written and the summary is printed (`switch_output`), of boards whose
//! type says that they are finished. Why a run was refused is told without memory (`switch_input::refusals`).
//!
//! A call that is handed a runtime may wait, and need not return. What a run does without workers is done by calls that
//! have none: `read_inputs`, `decide_alone`, `put_out` and `say_refusal`. That each of these returns is a part of its proof.
//!
//! # What is left to others
//!
//! Words, files and the rules of the edits to `switch_input`, the rules under the run's name to `table_versions::rules`, the run
//! and its blocks to `run_case`, deciding to `decider`, what is written to
//! `switch_output`, texts and statuses to `switch_input::refusals`, and all that touches the system to `edge_io`.
//!
//! Both ways to decide a run stand in `decider`.
#![tactic(auto)]

pub mod decider;
mod refusal;
mod run;
mod say;
mod status;

pub use run::run_switch;
pub use switch_input::refusals::OUT_OF_MEMORY;

//! What a run of the switch begins with: the words and what they name, read whole.
//!
//! # What?
//!
//! The words of the command line name a file of edits, perhaps a steps file and a mirrors file, and a trace for each port, or
//! none; or they have a number that makes edits and traces. `read_inputs` reads the words, then the edits, the steps, the
//! mirrors and the traces, from a shelf of files, up to the first that is refused. `read_edits` reads the edits alone, for whoever needs nothing else.
//!
//! # What is promised
//!
//! `spec_run` has the verdict on words and files: the run that they give, or their first refusal in the order of reading.
//! Where that is known, `read_inputs` answers just that: the shelf tells its bytes, or no file is read, since the words are
//! refused or have a number.
//!
//! - What was read is what the verdict accepts: the command, the edits and the sync points, the given steps, the mirrors, and
//!   a trace for each port. All of it is within the limits. The actions of the edits are sound.
//! - The rules of all versions that the edits make are handed on with it.
//! - An input is refused only as the verdict refuses it: words that the program doesn't take, the edits, the steps, the
//!   mirrors or a trace by the name and the first fault, or a quantity as above its limit.
//! - The files that are opened are those that the verdict opens, each once and in its order: all of them, or those up to the
//!   one at which reading failed, or, out of memory, a prefix. So none is opened after one that is refused.
//! - Where a number makes what is read, or the words are refused, the shelf isn't touched. That the words are refused is told
//!   where they are, and only there, whatever the shelf is.
//! - No file is left in use.
//! - A read fault is told only where calls of reading failed, and of the file that was last asked for, before which none
//!   did.
//! - Nothing else is refused, unless memory runs out. Whatever the answer is, nothing is written, and all but a read fault
//!   leave the counts of the shelf as they stood.
//!
//! # How
//!
//! Each stage of the verdict has a function whose contract is that stage: `read_command`, `read_edits`, `read_steps`,
//! `read_mirrors`, and `read_traces`, which goes from port to port and gives each trace the room that those before it left. The whole is the
//! chain of their answers, as the verdict is the chain of the stages. What all of them do to the shelf is one word,
//! `ReadsFiles` (`refusals`). They meet the shelf in `read_file` alone. The bytes of
//! a trace are read into the memory where they stay.
//!
//! What a number makes is put on a shelf in memory that never fails (`edge_io::memory`), and read from it by the same function
//! as files. So whatever limits files limits that too, and it takes the memory for its bytes twice while it is read.
//!
//! The store of rules that the edits make is the one of the run: frames are decided by it, and rules are printed from it.
//! It is made as the file of edits is read (`edit_script`), so no edit is kept beside it.
//!
//! # What is left to others
//!
//! What the words say to `command_words`, scripts to `edit_script`, what an edit does to `rule_tables`, steps files and
//! mirrors files to `port_scripts`, capture files to `pcap_files::reader`, what a number makes to `trace_gen`, and all that
//! touches the system to `edge_io`. What refusals are told as is for `refusals`, and what becomes of the run for
//! `switch_app`. No board is known here, so that reading and deciding are proved side by side.
//!
//! Statuses and texts of refusals stand in `refusals`.
#![tactic(auto)]

mod command;
mod edits;
mod inputs;
mod made;
mod mirrors;
mod reading;
pub mod refusals;
mod sources;
mod steps;

pub use crate::refusals::{InputFault, InputRefusal};
pub use command_words::{Command, FilesNamed, Input, PortWord};
pub use edits::{EditsFile, read_edits};
pub use inputs::{Inputs, read_inputs};
pub use port_scripts::Mirror;

//! Files of lines, read one line after the other.
//!
//! # What?
//!
//! The file of edits, a steps file and a mirrors file are *files of lines*: what a line says, it says after the lines
//! before it, and the first line that is wrong decides. `read_lines` reads such a file; what one more line says is
//! asked of a `LineReader`.
//!
//! # What is promised
//!
//! `spec_input` says what the lines of a text say (`Lines`), and `read_lines` answers just that, or that memory ran
//! out, if its reader does so of one line. What a reader keeps from line to line holds of what is answered. A line
//! that is too long is never handed to a reader.
//!
//! # How
//!
//! The bytes are walked once. Lines are parts of them, and nothing is copied.
//!
//! # What is left to others
//!
//! What a line says, and how much of it a file may have; where a line ends (`text_numbers`); and what counts as
//! comment (`field_text`).
#![tactic(auto)]

mod lines;
mod told;

pub use lines::{LineReader, read_lines};
pub use spec_input::FileFault;
pub use told::in_line;

//! The text of a difference.
//!
//! # What?
//!
//! For each line its match as a dump of megaflows has it. If it tells a difference, it is a class, and there stand what
//! the old rules do after `- `, and what the new ones do after `+ `; else `=`. In brief, a line for each pair of
//! actions, with the number of its classes. At the end a line counts both.
//!
//! # What is promised
//!
//! `print_difference` adds exactly the text that `spec_tools::run` gives, and nothing where there is no line. Out of
//! memory is the only error, and then the string has what it had, and perhaps a part of the text.
//!
//! # How
//!
//! A kind is told at the last of its classes, so each class is held against those that follow. Classes of one kind
//! mostly stand side by side, and then the next one is enough.
//!
//! # What is left to others
//!
//! The lines (`class_list`), matches (`dump_lines::megaflows`), flow actions and datapath actions (`action_text`).

mod kinds;
mod text;

pub use text::print_difference;

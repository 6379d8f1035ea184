//! The steps of a board, and their lines in a journal's text.
//!
//! # What?
//!
//! What is done to the caches of an ingress port is a list of *steps*, each with its result: a look, a settle, a
//! sweep's begin, put and end, the opening of a block. `Step` is one, as boards keep them and journals are written of
//! them. `push_step` adds its line to a text; `spec_board` has the form of the lines.
//!
//! # What is promised
//!
//! - The text of a step is that of the definition. Out of memory alone is free.
//! - The text of journals determines them (`journals_text_is_one_to_one`): whoever reads one knows every step with all
//!   its numbers and results, and in which order they were taken. This is of numbers with at most 64 decimal digits,
//!   which is what a text is given at most. All numbers of a step are among them.
//!
//! # How
//!
//! That the text determines the journals is proved by reading it: cut at the line feeds, each line gives words, cut at
//! the spaces. No number and no word has either in it. The first word of a line tells its kind, and the words after it,
//! by their places, tell the rest. Reading the text of journals gives them back, so no two have the same text.
//!
//! # What is left to others
//!
//! Which steps are taken (`pmd_board`), and the file of the journals (`flow_dump`).
#![tactic(auto)]

mod laws;
mod step;
mod step_text;

pub use laws::journals_text_is_one_to_one;
pub use step::{EntryNumbers, Settled, Step};
pub use step_text::push_step;

//! The steps file: a schedule of one's own, a step a line, and what the whole file says, or what is wrong with it first
//! (`Steps`).

mod step_word;

pub use step_word::StepWord;

//! The dumps of a run as text: its rules, its megaflows, the journals of its boards, and its summary.
//!
//! # What?
//!
//! A *journal* is what the caches of an ingress port did, step by step. A dump of journals is a file with a line `port
//! P` for each port and then a line for each of its steps, with the step's result. `write_journals` writes one through
//! a shelf; `spec_board` has the form of its lines.
//!
//! A dump of rules is a file with a line for each rule that is live in the last version, with its packets and bytes, and
//! then one for each rule that is gone. A dump of megaflows has a line for each megaflow that stands at the end, by port
//! and number. `write_rules` and `write_megaflows` write them, and `say_summary` says the *summary* of a run to a sink:
//! how many frames came in, how they were decided, and how often they were sent. The forms are those of `spec_run`.
//!
//! # What is promised
//!
//! - After `Ok` the file has exactly the text of the dump, and is closed. After a refusal it has a prefix of that
//!   text, or was not created. `Fault` is answered only where the shelf's count of writing rose, and then the last name
//!   that the shelf was asked for is that of the dump.
//! - All numbers of a journal that was written have at most 64 decimal digits, so that its text determines it
//!   (`board_steps::journals_text_is_one_to_one`).
//! - After `Ok` the sink was told exactly the summary, and after a refusal a prefix of it.
//!
//! # How
//!
//! One buffer holds what is written next: a line, or of a journal the lines of 64 steps. It is emptied and used again, so
//! that after the first few times no memory is taken. A shelf gathers small writes itself, if it likes.
//!
//! The line of a look is mostly that of the look before with another last digit (`look_line`): most steps are looks, their
//! places rise by one, and most of them found what the one before did.
//!
//! What is written of each board, its journal or its megaflows, is a choice that one walk over the boards takes.
//!
//! The counts of all rules are summed once, over the boards and their megaflows (`sums`), and the rules sorted once
//! (`dump_lines::rules`).
//!
//! A port lends the list of its megaflows' numbers, which rise, and each is looked up once. What a megaflow does can be
//! printed since it is a translation of a key: that is a law of boards.
//!
//! The summary is made as one text before any of it is said. The steps of the journals are counted in one walk, and so
//! are the decided frames: a list of actions sends as many pieces as it has outputs, so no frame is executed.
//!
//! # What is left to others
//!
//! The text of a step (`board_steps`), of a rule (`dump_lines::rules`) and of a megaflow (`dump_lines::megaflows`), that the boards are
//! finished and in the order of the words (`run_boards`), and the name of the file. What a shelf does with a file that
//! was written in part: it may still be in use.
//!
//! What all boards counted of a rule stands in `sums`.
#![tactic(auto)]

mod boards;
mod frame_counts;
mod journal;
mod look_line;
mod megaflows;
mod rules;
mod step_counts;
mod summary;
pub mod sums;

pub use boards::{write_journals, write_megaflows};
pub use rules::write_rules;
pub use summary::say_summary;

//! Given steps, carried out on boards.
//!
//! # What?
//!
//! A schedule may begin with steps that are given: look up the next frame of a port, translate a pending frame now and
//! settle it later, begin a sweep, revalidate a megaflow by a translation that the tables have left behind since. So a run
//! shows at will what else only a race between threads would show. A step names the port whose board is to take it. Where
//! the board can't take it, the step is *unmet*, and the next one follows.
//!
//! # What is promised
//!
//! - A `ScheduledBoard` is a board and the translations that are kept for it, of pending frames and of listed megaflows.
//!   It is seen as its port, its journal, and the number and version of what is kept, in whatever order
//!   (`specs/ScheduledViews`): a board under way, as `spec_board` has it.
//! - `take_step` does with the board of its port what `spec_board` defines as `given_step`, and answers whether the
//!   step was met. That is exactly where the board refuses nothing and, with a settle or a put, a translation is kept.
//!   A settle and a put give up the translation, met or not. Whatever the steps are, the journal is legal.
//! - A step translates one key at most. Out of memory is the only error, and then the board is left on the way.
//! - `run_steps` carries out a list of given steps on the boards of a run, one after the other, as `spec_board` defines
//!   it (`with_given_steps`), and answers the boards and how many steps were unmet. A step of a port that isn't the
//!   run's is unmet, and an edit where no bundle of the least block of the boards is left. Kept translations are given
//!   up at the end.
//! - `run_schedule` carries out the whole schedule of a run: its given steps, on new boards, and then the end of every run.
//!   The journals are those of the schedule (`AreJournals`). Where no steps are given, each frame is decided under the last
//!   version of its block.
//!
//! # How
//!
//! A board refuses a step exactly where the definition has a fault, so a step is tried, and it is met if it was taken
//! (`attempts`). What the board can't ask is proved of what is kept. The type of a translation says that it is that of
//! its key under its version. The type of a `ScheduledBoard` says that this key is that of the place's frame, or of the
//! megaflow of its number for as long as that is live. For a megaflow's key never changes, and no number is given twice
//! (`proofs/Entries`). At most one translation is kept for a number, in a map (`kept`), so that a step takes as long
//! however many are kept. The definition has them in a list, the latest first; but no step depends on their order
//! (`proofs/ByNumber`), so the two are compared by number (`specs/ByNumber`).
//!
//! The board of a step is found by the place of its port in the words, so no step walks over the boards; an edit does, to
//! find their least block. How a run ends doesn't depend on the translations that are kept: each stage of it does the same
//! without them (`proofs/GivenUp`). So boards whose kept translations are given up end with the same journals.
//!
//! # What is left to others
//!
//! How a run ends whatever was done before is `step_runner`'s (`finish`).
//! Reading a file of steps is `port_scripts`'s.
#![tactic(auto)]

mod attempts;
mod kept;
mod running;
mod schedule;
mod scheduled_board;
mod steps;

pub use running::{run_schedule, run_steps};
pub use scheduled_board::ScheduledBoard;

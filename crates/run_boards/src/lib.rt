//! The boards of a run: one for each port, and at the end finished.
//!
//! # What?
//!
//! Whoever carries a run out, as its schedule has it or in threads, does so at its boards; and whoever writes what came of
//! it reads them when nothing is left to be done. Both meet here, and neither waits for the other's proof. `Boards` are
//! the boards of a run on their way, and `Finished` those at which nothing is left.
//!
//! # What is promised
//!
//! - `Boards` is a list with one board for each port of the run, in the order of the words, each with the run's flow
//!   limit. It is made anew, or of a list that is tested or known.
//! - `Finished` is seen as its journals, and they are whole (`spec_run`): there is one for each port, each is legal and
//!   complete, each frame is decided once and within its window, and each rule is credited with or owed what it is due.
//!   It lends the boards, the arrivals in their order, and each arrived frame with the actions that were decided for
//!   it.
//!
//! # How
//!
//! A journal is legal by the type of its board, and the laws of legal journals (`board_laws`) say the rest. So that boards
//! are finished is all that `Finished::new` asks. Definitions of how far boards are, in blocks and frames, stand here too
//! (`specs/Progress`, `specs/Scheduled`), as all who carry a run out say it in these words.
//!
//! # What is left to others
//!
//! Which steps the boards take: `step_runner`, `given_steps` and `worker_run`. What is written of finished boards:
//! `egress_capture`, `egress_capture::mirror`, `flow_dump` and `netflow_v5`.
//!
//! The order of arrivals stands in `arrivals`.
#![tactic(auto)]

pub mod arrivals;
mod boards;
mod decided_frame;
mod finished;

pub use boards::Boards;
pub use decided_frame::DecidedFrame;
pub use finished::{Finished, recall_laws};

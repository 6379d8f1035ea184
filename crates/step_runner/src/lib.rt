//! How a run is carried out: which steps its boards take, to the end.
//!
//! # What?
//!
//! A board refuses what isn't legal and chooses nothing. Here is chosen. The boards of a run (`Boards` of `run_boards`)
//! are carried through its blocks, whatever was done of them before, until every frame is decided; then they are
//! *finished* (`Finished`).
//!
//! # What is promised
//!
//! - `finish_block` and `finish` take the steps of the schedule that `spec_board` defines, from the boards and the
//!   version at which they find them. Where they find new boards, each frame is decided under the last version of its
//!   block.
//! - `close_phase` ends what workers did of a block, by tables of the block's last version, which it only reads. It asks
//!   nothing of the boards that they leave: those that fit finish the block, and in the place of others new ones are
//!   carried through the whole run, by tables of its own. It says which of these it was.
//!
//! # How
//!
//! All boards go through a block before one goes through the next: the least block of all boards is finished in turn.
//! The tables follow the bundles of the run up to the last version of the block, once for all boards (`table_versions`). In
//! each block a board ends the sweep that runs, settles the frames that are pending, and makes a sweep of that version,
//! where none was completed: it puts each megaflow that is listed, in rising order, by the translation of its key
//! (`sweeping`). Each translation is made in the memory of lists that the put before it gave back. Then the board looks
//! up each frame that is left of the block. What no megaflow covers is translated, and settled at once (`deciding`).
//!
//! Where a megaflow decides a frame, it was translated under the last version of the block: none older is left by the
//! sweep, and none newer may come before the block ends (`proofs/Frames`). So a frame is as far as it was, or decided
//! as planned, at every moment (`OnlyPlans`), which goes on from step to step. A megaflow that isn't idle, nor stale,
//! stays from block to block, with its mask. No call of a board can be refused here, which is proved call by call
//! (`steps`).
//!
//! # What is left to others
//!
//! Given steps (`given_steps`), and the threads of workers (`worker_phase`, `worker_run`). What is written of finished boards,
//! `egress_capture` and `flow_dump` write; what datapath actions make of a frame is `action_exec`'s.
#![tactic(auto)]

mod closing;
mod deciding;
mod finishing;
mod steps;
mod sweeping;

pub use closing::close_phase;
pub use finishing::{finish, finish_block};

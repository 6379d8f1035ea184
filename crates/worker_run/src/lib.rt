//! A run decided by workers, phase after phase.
//!
//! # What?
//!
//! Threads work at each block of a run (`worker_phase`), and leave boards that may be anyone's. The calling thread ends the
//! block with them, and goes on to the next one.
//!
//! # What is promised
//!
//! `decide_by_workers` answers finished boards (`run_boards`), whatever the threads did and in whichever order: there is
//! a journal for each port, it is legal and complete, each frame is decided once and within its window, and each rule has
//! what it is due. Which of the many journals that a run may have these are, nobody promises. The only error is out of
//! memory.
//!
//! By its bounds the call may wait, so that it returns is no part of what is proved.
//!
//! # How
//!
//! At the end of a phase the calling thread has the editor of the published tables back, and no other thread is left. By
//! the tables that were published last `close_phase` (`step_runner`) tests whether the boards are those of the block, and
//! completes it: so there are two copies of the tables, the two of the publication. Where memory was wanting while they
//! were published, they aren't of the block's last version; then the calling thread makes tables of its own for the block.
//! If the boards weren't those of the block, `close_phase` would decide the whole run anew, and no further phase would be
//! started.
//!
//! # What is left to others
//!
//! The threads of a phase (`worker_phase`), the end of a block (`step_runner`), and who keeps the tables (`RunTables` of
//! `table_versions`).
#![tactic(auto)]

mod deciding;

pub use deciding::decide_by_workers;

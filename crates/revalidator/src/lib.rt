//! Revalidators: they sweep the megaflows of boards, so that these follow the tables.
//!
//! # What?
//!
//! A megaflow stands for the version of the tables that it was translated under. When the tables change, a revalidator
//! translates the key of each megaflow anew and has the board hold the megaflow against that: it is kept, changed or
//! dropped. One turn over all of them is a *sweep*. (Open vSwitch's revalidator threads; Pfaff et al., NSDI 2015.)
//!
//! # What is promised
//!
//! `sweep_board` makes one sweep of a board that threads share, at a version that the seer sees. Each key is translated
//! outside the board's lock, which is taken for single calls of the board alone, so that frames are looked up and upcalls
//! settled meanwhile. It says how it ended:
//!
//! - `Done`: the sweep was ended. Its version is no older than what the seer saw before the call, and no newer than what
//!   it has seen after it.
//! - `Busy`: a sweep was running. It had begun at a version that some block of the run allows.
//! - `Beyond`: the board's block doesn't allow a version that the seer saw. The sweep, if it had begun, runs on.
//! - `Other`: someone else had ended the sweep.
//! - `Left`: some megaflows were still to be put, and a sweep runs on.
//!
//! The seer comes back, of the same publication, and has seen no less than before.
//!
//! What a board had and has behind its lock no contract can say. What one call does with a board that was lent is a clause
//! of `begin_lent`, `put_lent` and `end_lent`.
//!
//! # How
//!
//! A megaflow is named by its number while the lock is free. Numbers are never used again, but what the board lists under
//! it is read again before it is put, and passed over where it isn't the key that was translated. The lock is taken once for
//! a put and for reading which megaflow is next. A translation is made in the memory of lists that the put before it gave
//! back.
//!
//! Each megaflow is asked for by the number of the one before it, and numbers rise, so the sweep comes to an end whatever
//! others do with the board meanwhile.
//!
//! # What is left to others
//!
//! Threads, when to sweep which board, and sweeps that were left: the end of a block completes them.
#![tactic(auto)]

mod lent;
mod sweeping;
mod swept;

pub use lent::{begin_lent, end_lent, put_lent};
pub use sweeping::sweep_board;
pub use swept::{Begun, Putting, Swept};

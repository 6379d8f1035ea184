//! Handlers of upcalls: they translate the frames that caches missed, and settle them.
//!
//! # What?
//!
//! A frame that its port's caches missed waits on its board. A handler takes up its upcall, translates the frame's
//! key through the tables that are published, and settles the frame on its board: so it is decided, and a megaflow is
//! installed where there is room. (Open vSwitch's handler threads; Pfaff et al., NSDI 2015.)
//!
//! # What is promised
//!
//! `handle_all` handles upcalls of one port together. It translates all of their frames first, outside the board's
//! lock, so that frames of the port are looked up meanwhile, and takes the lock once for their settles. A sweep may
//! begin in between, and then the board refuses a translation that is older: that frame is translated again and
//! settled under a lock of its own, in `TRIES` tries at most in all. The call tells what became of each upcall, as
//! counts (`Handled`) that come to the number of the upcalls:
//!
//! - `settled`: the frame is decided.
//! - `gone`: the run has no such frame, or the board was of another port, or the frame wasn't pending.
//! - `left`: `TRIES` translations were each older than a sweep. The version of the last such sweep is newer than what
//!   the seer had seen before, and some block of the run allows it; where all upcalls were left, as where there is
//!   one, it is newer than all that the seer saw.
//! - `beyond`: the translation was newer than the board's block allows, by a version that the seer saw.
//!
//! The seer comes back, of the same publication, and has seen no less than before. Where memory is wanting, some
//! frames may have been settled.
//!
//! What a board had and has behind its lock no contract can say. What one settle does with a board that was lent is a
//! clause of `settle_lent`, by which each of them is made; that frames are settled at all, and how often they are
//! tried, is tested.
//!
//! # How
//!
//! A try after a stale one enters the tables anew, and so finds the version at which the sweep began, if that is
//! published by then. What a try tells of versions is a clause of its own (`Tells`), since it stays true when the
//! lock is free again; what it did with the board (`Settles`) doesn't.
//!
//! # What is left to others
//!
//! The queue of upcalls, threads, and frames that were left: the end of their block settles them.
#![tactic(auto)]

mod handling;
mod settling;
mod translated;
mod upshot;

pub use handling::{TRIES, handle_all};
pub use settling::settle_lent;
pub use upcall_queue::upcalls::Upcall;
pub use upshot::{Handled, Settling};

//! Upcalls, and what takes them.
//!
//! # What?
//!
//! A frame whose key no cache of its port knows is handed to the slower path: that is an *upcall*. Who looks frames up
//! doesn't handle upcalls, but gives them to an `Upcalls`, as a receive worker gives them to the queue of the handlers.
//!
//! # What is promised
//!
//! Contracts see of an `Upcalls` which upcalls it took, in the order in which they were given, how many it refused, and
//! the rest of it, which no call changes.
//!
//! - `give` answers true and the upcall stands at the end of those taken; or it answers false, and those taken stay.
//! - The count of refusals never falls. False comes only where it rose, so nobody refuses without that being counted.
//! - `room` changes nothing. What it answers is a hint: no clause ties it to what `give` answers.
//!
//! # What is left to others
//!
//! What becomes of an upcall that was taken, and of one that was refused: its frame goes on waiting. And how many are
//! taken: one that refuses all is an `Upcalls` too.

mod upcall;
mod upcalls;

pub use upcall::Upcall;
pub use upcalls::Upcalls;

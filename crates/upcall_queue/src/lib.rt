//! The queue of upcalls, by which receive workers hand frames to handlers.
//!
//! # What?
//!
//! Receive workers look frames up, and handlers translate those that no cache knows. Between them stands a queue with room
//! for a fixed number of upcalls, which all of them share without a lock. (In Open vSwitch the kernel's datapath hands
//! upcalls to handler threads in such a way: Pfaff et al., "The Design and Implementation of Open vSwitch", NSDI 2015.) An
//! `UpcallQueue` is the queue. A `Pass` is the right of one thread to put and take, and a `Feeder` gives upcalls by a pass
//! to whoever asks for an `Upcalls`.
//!
//! # What is promised
//!
//! No contract can say what a shared queue holds, since another thread may change it at any moment. What one thread put
//! and took stays true, and that is what contracts see of a pass: its number, what it put, how many of its pushes were
//! refused, what it took, and the lists of the passes that it has taken in (`specs/Views`). Each upcall that was taken
//! stands there with its putter's number and its place among that putter's puts. These two numbers exist in proofs alone.
//!
//! - `push` puts an upcall at the back, in one step, or hands it back, and then the pass counts one more refusal. It comes
//!   back only where the queue was full at one moment of the call.
//! - `pop` takes the upcall at the front, in one step. There is none only where the queue was empty at one moment of the
//!   call.
//! - `room` changes nothing, and answers what was left of the capacity at one moment of the call. It is a hint.
//! - What a pass took of one putter stands in the putter's order: the places rise, and where the putter's pass is known,
//!   the upcall is what it put at that place.
//! - `take_in` ends a pass, whose lists go to another. Where a pass has taken in all the others, and a `pop` by it finds
//!   nothing, each upcall was taken exactly as often as it was put: none was lost and none came twice.
//!
//! What a call says of the queue at one moment is an account of the upcalls in it, and a pass can give that only where it
//! has taken in all the others (`Accounts`). Of other passes such a clause says nothing, and `structure_tests` shows the rest.
//!
//! # How
//!
//! The queue is a ring of slots with stamps (`crossbeam_queue`, in its ruled and bounded form). Its rule speaks of what is
//! queued and of what all passes know (`specs/Rule`):
//!
//! 1. Each upcall that is queued or was taken has a putter and a place among that putter's puts, where it stands.
//! 2. Of each putter the queued places are the last ones, without a gap and in order. Of the places before them each stands
//!    exactly once in what passes took, and no other place does.
//! 3. In what one pass took, the places of one putter rise.
//!
//! Seven kinds of step keep it (`proofs/Keeps`): a queue is made, a pass is made, a push, a push that is refused, a pop, a
//! pop that finds nothing, and one pass taken into another. The first pass makes the others and knows how many there are,
//! so the pass that has it and as many others in it has all.
//!
//! Refusals are counted beside what a pass knows: a refused push changes nothing of which the rule speaks.
//!
//! # What is left to others
//!
//! What is done with an upcall, and with one that was refused. That anybody takes what was put, and that a call returns: a
//! push, a pop and a look for room may wait for another thread that is in the midst of its own.
//!
//! An upcall, and what takes it, stand in `upcalls`.
#![tactic(auto)]

mod feeder;
mod known;
mod pass;
mod queue;
mod rule;
mod threads;
pub mod upcalls;

pub use crate::upcalls::{Upcall, Upcalls};
pub use feeder::Feeder;
pub use pass::Pass;
pub use queue::UpcallQueue;

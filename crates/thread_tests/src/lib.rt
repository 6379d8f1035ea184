//! Tests of whole runs with workers, in which a gate holds a thread until another has come to a point.
//!
//! The contract of `run_switch` says what is so of every order in which threads run, also of that in which one thread
//! does all. What it can't say is shown here: that threads do run side by side, and that what they did is what is
//! written. Each test fails for a body that is right and yet does otherwise.
//!
//! - One that leaves all upcalls to one thread, or to the end of the block, never has two of them under way
//!   (`upcalls_are_handled_side_by_side`).
//! - One that holds a board's lock from the translation of an upcall to its settle looks up no frame meanwhile, one
//!   that throws the boards of threads away has one miss alone, and one that looks up all frames first has no hit
//!   (`frames_are_looked_up_while_an_upcall_is_translated`).
//! - One that makes more or fewer workers than it is asked for, or gives two handlers one mailbox, doesn't begin each
//!   worker once (`each_worker_begins_once`). One whose workers don't run side by side never has just so many held at
//!   once (`there_are_as_many_receive_workers_as_asked_for`, `there_are_as_many_handlers_as_asked_for`), and one that
//!   gives ports to receive workers otherwise polls a port while its worker is held
//!   (`a_receive_worker_polls_every_second_port_of_two`).
//! - One whose revalidator leaves a port out checks no megaflow of it, and one that sweeps again and again checks one
//!   too often (`the_revalidator_sweeps_each_port`).
//! - One whose handlers end too early, or that drops an upcall which it took, translates fewer than wait
//!   (`an_upcall_is_handled_that_comes_long_after_the_others`,
//!   `upcalls_are_handled_that_wait_when_all_frames_are_looked_up`).
//! - One that publishes edits after the frames of their block has no sweep while a batch is held
//!   (`edits_are_published_while_frames_are_looked_up`), and one whose editor waits for a handler that is held has
//!   none while an upcall is (`bundles_are_published_while_a_handler_learns_of_none`).
//!
//! A thread is held for a bounded number of turns, each of which yields, so that no body hangs a test.
//!
//! Nothing is built on this crate.
#![tactic(auto)]

#[cfg(test)]
mod counting;
#[cfg(test)]
mod gates;
#[cfg(test)]
mod holding;
#[cfg(test)]
mod running;
#[cfg(test)]
mod tests;

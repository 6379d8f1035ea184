//! The laws of summaries: how the counts that a run prints come to each other, with any number of workers.
//!
//! # What?
//!
//! A summary tells what was found by looks, what was done by settles, and how many frames were sent and dropped. With
//! workers the first two are as threads have it. Here stands what is so in any case.
//!
//! # What is promised
//!
//! - *Looks are as many as frames, and settles as many as misses* (`summaries_add_up`): `exact`, `mega` and `miss` add
//!   up to `frames`, and `installed`, `present` and `full` to `miss`. So it is of any whole journals of any run, also
//!   where steps were given: a whole journal looks up each frame once, and leaves none pending.
//! - *The frames that are sent and dropped don't depend on the order of steps* (`summaries_send_alike`), where two lists
//!   of whole journals decide each frame under the last version of its block, as all do where no block has both edits
//!   and frames. So with any number of workers `sent` and `dropped` are what they are without workers.
//! - *Then they are numbers of the run* (`summaries_send_plainly`): each frame counts as what the last version of its block
//!   sends it as.
//! - *A run that a number makes is one of these* (`made_runs_have_edits_apart`), and so is each run whose last edit is
//!   followed by a line `sync 0`, whatever stands before it: no sync point is earlier than the one before it, so that all
//!   are at time 0, and all frames come after the last of them.
//!
//! # Which definitions this refuses
//!
//! A look that is counted twice, or for no frame; a settle of a frame that isn't pending, and a frame that is left
//! pending; a hit that leaves a frame pending; frames that are counted as sent by what a megaflow does to another key.
//!
//! # How
//!
//! Each look moves the next place on by one, and no look is legal beyond the trace; a miss makes one frame more pending,
//! and a settle one less. So the counts follow from the state at the end (`proofs/Counted`). What a frame is sent as is
//! what its decision says, which is the same in both lists (`proofs/SentAlike`), and what the run alone says
//! (`proofs/SentPlainly`). The edits that a number makes are read up to their last lines only as far as to see that sync
//! points stand in order (`proofs/MadeApart`, `proofs/MadeRuns`).
//!
//! # What is left to others
//!
//! That a run makes whole journals is the contract of what makes them. `entries` depends on the order of steps. That
//! the run of a number is accepted is no law here: where it is, it is as said.

mod made;
mod sums;

pub use made::made_runs_have_edits_apart;
pub use sums::{summaries_add_up, summaries_send_alike, summaries_send_plainly};

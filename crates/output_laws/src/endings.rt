//! The laws of how a run ends: what its summary says, with any number of workers.
//!
//! # What?
//!
//! `Ends` of `switch_app` says that the summary of a run that is done is printed by journals of it. With workers these are
//! as threads have it. Here stands what the printed line says in any case.
//!
//! # What is promised
//!
//! Of a call that ends as `Ends` has it, with the status of a run that is done:
//!
//! - *The counts that are printed add up* (`done_runs_print_their_sums`): `exact`, `mega` and `miss` to `frames`, and
//!   `installed`, `present` and `full` to `miss`.
//! - *Where no block has both edits and frames, `sent` and `dropped` are numbers of the run*, which no worker has a say in:
//!   each frame counts as what the last version of its block sends it as.
//! - *So it is of each run that a number makes* (`made_runs_print_alike`), whatever the shelf is. The first line of the
//!   summary and these two numbers depend on the number alone, so that two calls with it print the same of them.
//!
//! # Which definitions this refuses
//!
//! An end that is told as done where other counts are printed than those of whole journals of the run that was accepted.
//!
//! # How
//!
//! The end of a run that is done has the journals by which it is, and `summaries` says of whole journals what is asked here.
//!
//! # What is left to others
//!
//! `exact`, `mega`, `miss` and what settles did are as threads have it, but for their sums, and so is `entries`.

mod done;

pub use done::{done_runs_print_their_sums, made_runs_print_alike};

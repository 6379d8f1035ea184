//! How the switch decides a run: by its schedule or by workers, over tables in a classifier.
//!
//! # What?
//!
//! Those who carry a run out (`given_steps`, `worker_run`) are proved for tables of any kind. Here they meet the tables that
//! the switch keeps (`run_tables`), so that whoever decides runs with them names no kind of tables.
//!
//! # What is promised
//!
//! - `run_schedule` is that of `given_steps`: the journals are those of the run's schedule. Its bounds leave nothing to wait
//!   for, so that it returns is part of its proof.
//! - `decide_by_workers` is that of `worker_run`: it answers finished boards. It may wait, and need not return.
//!
//! The only error is out of memory.

mod decider;

pub use decider::{decide_by_workers, run_schedule};

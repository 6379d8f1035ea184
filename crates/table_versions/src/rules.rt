//! The rules of a run, under its name.
//!
//! # What?
//!
//! A run begins with empty tables, and each *bundle* of its edits makes the next version of them: edits that become true
//! together. `RunRules` holds the rules of all versions, and its type says of which run they are.
//!
//! # What is promised
//!
//! The rules are those that the run's edits make in its bundles, and there are as many edits and versions as the run has.
//! No call takes memory.
//!
//! # How
//!
//! The rules stand in a store (`rule_tables`), which was made as the edits were read, and a ghost field keeps that its
//! history is the run's. Nothing changes them any more: so all who go from version to version share them.
//!
//! # What is left to others
//!
//! Frames and blocks, and how many bundles a block begins with: `run_case` knows only how many there are, so that what
//! reads frames waits for no table. That the edits are those of the file.

mod run_rules;
mod threads;

pub use run_rules::RunRules;

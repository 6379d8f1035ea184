//! The flow tables of a run, kept in a classifier.
//!
//! # What?
//!
//! `ClassifierTables<C>` are what keeps the tables of one version of the run `C.run` (`RunTables` of `table_versions`): the
//! rules of that version by their masks, in which a packet's winner is found without a scan.
//!
//! # What is promised
//!
//! The contract is that of the trait. That the rules are exactly those which the first so many bundles of the run make is
//! kept by the type, so nobody who holds tables has to prove it again. The only error is out of memory.
//!
//! # How
//!
//! The rules are kept by their masks (`tuple_classifier`), packets are translated over them (`xlate_pipeline`), and the
//! ports are those of the run. The classifier is an index of the run's rules, which all tables of the run share, and goes
//! on from version to version in place. A translation is made in lists that its caller hands in, whose memory it uses
//! again.
//!
//! # What is left to others
//!
//! What the edits make, and what a bundle changed: the store of the run's rules (`rule_tables`, under the name of the run
//! in `table_versions`).
#![tactic(auto)]

mod tables;
mod threads;

pub use tables::ClassifierTables;

//! Tests of those who work on what threads share: editors and seers of published tables, polls, the handling of an
//! upcall, sweeps.
//!
//! A contract says what a call answers where there is memory, so a body that always says that there is none would
//! meet it. Such a body fails here. One that makes a place too few for readers of tables waits here for ever, for a
//! seer to learn. That a guard keeps its version while the next one is published, and that news get from an editor to
//! a seer through a lock, is shown on one thread, where nobody waits.
//!
//! Contracts say little of what is done to a board behind its lock, and nothing of how often the gate is told. Here a
//! row (`runs`) is a run of literal edits and frames (`literal_run`), and a list of acts on its port's board, each with
//! what it is to answer. One thread does them all, so that every answer is settled. That a board is free while a key
//! is translated is shown by a gate that works on the board itself (`meddling`). One function makes the run and one
//! carries out an act, so that their proofs serve all rows.
//!
//! The tests stand in a crate of their own, since a crate with tests is proved twice.
#![tactic(auto)]

#[cfg(test)]
mod acts;
#[cfg(test)]
mod calls;
#[cfg(test)]
mod handling;
#[cfg(test)]
mod literal_run;
#[cfg(test)]
mod mailbox;
#[cfg(test)]
mod meddling;
#[cfg(test)]
mod places;
#[cfg(test)]
mod polling;
#[cfg(test)]
mod runs;
#[cfg(test)]
mod stage;
#[cfg(test)]
mod sweeping;
#[cfg(test)]
mod turns;

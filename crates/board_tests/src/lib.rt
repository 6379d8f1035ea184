//! Tests of runs and of boards: where the blocks of a run end, each call of a board that takes memory with ample memory,
//! what refuses each call, and what the end of a phase makes of a board.
//!
//! A contract says what a board answers where there is memory, so a body that always says that there is none would meet
//! it. Such a body fails here. The answers of the rows were worked out by hand from how the caches are to behave, so a
//! definition that says something else fails here too.
//!
//! A row (`rows`) is a run of literal edits and frames, and calls of its port's board, each with its answer. One function
//! makes the run and one carries out a call, so that their proofs serve all rows. The end of a phase (`closing`) is a call
//! too, which leaves another board. The tests stand in a crate of their own, since a crate with tests is proved twice.
#![tactic(auto)]

#[cfg(test)]
mod blocks;
#[cfg(test)]
mod calls;
#[cfg(test)]
mod closing;
#[cfg(test)]
mod flows;
#[cfg(test)]
mod limits;
#[cfg(test)]
mod ranks;
#[cfg(test)]
mod refusals;
#[cfg(test)]
mod rows;
#[cfg(test)]
mod sweeps;

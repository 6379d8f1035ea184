//! Tests of whole traces and comparisons, over files and a standard output in memory.
//!
//! What contracts can't say is shown here: that these commands succeed where memory is ample, and that each status comes
//! with its text, byte for byte.
//!
//! Nothing is built on this crate.
#![tactic(auto)]

#[cfg(test)]
mod comparisons;
#[cfg(test)]
mod inputs;
#[cfg(test)]
mod traces;

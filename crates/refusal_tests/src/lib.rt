//! Tests of whole runs that are refused, or whose files fail, over files and a standard output in memory.
//!
//! The contract of `run_switch` says which refusal comes first and what is left then. Shown here is that the definitions give
//! the status and the text that one expects: of faulty words (`words`) and files (`refusals`), of files that are too great, which
//! are made while they are read (`great`, `made`), and of calls of the outside that fail in reading and writing, some by a
//! table (`failing`), and all of a run in turn. A table is a text, as the essay of `switch_runs` has it, and each test says how
//! many runs its tables have.
//!
//! Nothing is built on this crate.
#![tactic(auto)]

#[cfg(test)]
mod failing;
#[cfg(test)]
mod great;
#[cfg(test)]
mod made;
#[cfg(test)]
mod refusals;
#[cfg(test)]
mod tests;
#[cfg(test)]
mod words;

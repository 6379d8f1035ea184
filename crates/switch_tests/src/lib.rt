//! Tests of whole runs that are accepted, over files and a standard output in memory.
//!
//! The contract of `run_switch` says what a run reads, writes and answers. What it can't say is shown here: that runs
//! succeed where memory is ample, and that the definitions give the files, texts and statuses that one expects, byte
//! for byte.
//!
//! Runs stand in tables, by what they show: what is sent (`sending`), which rules are told (`rules`), what caches decide
//! (`caching`), how frames are rewritten (`rewrites`), tagged (`tags`) and dropped (`limits`), which fields a megaflow is
//! about (`matches`), given steps (`given`, `schedules`), flows and mirrors (`outlets`), and what is the same with workers
//! (`workers`). Each has all its files and its summary. A table is a text, as the essay of `switch_runs` has it, and each test
//! says how many runs its tables have. What the texts say comes from the formats' own page and from the switch's simulation,
//! which shares nothing with the program.
//!
//! Nothing is built on this crate.
#![tactic(auto)]

#[cfg(test)]
mod caching;
#[cfg(test)]
mod given;
#[cfg(test)]
mod limits;
#[cfg(test)]
mod matches;
#[cfg(test)]
mod outlets;
#[cfg(test)]
mod rewrites;
#[cfg(test)]
mod rules;
#[cfg(test)]
mod schedules;
#[cfg(test)]
mod sending;
#[cfg(test)]
mod tags;
#[cfg(test)]
mod tests;
#[cfg(test)]
mod workers;

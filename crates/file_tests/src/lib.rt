//! Tests of what is read and written: flow text, capture files, the frames in them, and the outside, each public function
//! once, with ample memory.
//!
//! A contract says what is read and printed where there is memory, so a body that always says that there is none would
//! meet it. Such a body fails here. The tests stand in a crate of their own, since a crate with tests is proved twice.
#![tactic(auto)]

#[cfg(test)]
mod actions;
#[cfg(test)]
mod captures;
#[cfg(test)]
mod datapath;
#[cfg(test)]
mod gates;
#[cfg(test)]
mod layouts;
#[cfg(test)]
mod made;
#[cfg(test)]
mod matches;
#[cfg(test)]
mod megaflows;
#[cfg(test)]
mod memory;
#[cfg(test)]
mod mirrors;
#[cfg(test)]
mod netflow;
#[cfg(test)]
mod numbers;
#[cfg(test)]
mod rewriting;
#[cfg(test)]
mod scripts;
#[cfg(test)]
mod steps;
#[cfg(test)]
mod system;
#[cfg(test)]
mod values;

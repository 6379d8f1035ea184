//! Tests of keys, megaflows, rules, translations and what boards keep of them: each public function once, with ample
//! memory, and the limits of a translation.
//!
//! A contract says what comes out where there is memory, so a body that always says that there is none would meet it.
//! Such a body fails here. The tests stand in a crate of their own, since a crate with tests is proved twice.
#![tactic(auto)]

#[cfg(test)]
mod bundles;
#[cfg(test)]
mod caches;
#[cfg(test)]
mod fields;
#[cfg(test)]
mod megaflows;
#[cfg(test)]
mod rules;
#[cfg(test)]
mod totals;
#[cfg(test)]
mod translations;

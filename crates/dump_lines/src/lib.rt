//! The lines of the dumps: of a rule, and of a megaflow.
//!
//! # The parts
//!
//! - `rules`: lines of OUT.rules, and which rules are dumped in which order.
//! - `megaflows`: lines of OUT.megaflows.
//!
//! Files, and which boards they tell of, are left to `flow_dump`.
#![tactic(auto)]

pub mod megaflows;
pub mod rules;

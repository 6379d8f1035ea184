//! What two versions of the rules have in common, and what was changed between them.
//!
//! # What?
//!
//! Most packets are treated alike by two versions for a simple reason: they meet no rule that was changed.
//! `changes_of` gives the matches of the rules that the one version or the other hasn't, and the bits that no action
//! writes.
//!
//! # What is promised
//!
//! Both versions do the same to each packet that none of these matches speaks of, whatever becomes of the bits that
//! actions write: `AreAllChanges` (specs/Changes.antt), in the words of `spec_tools`. `same_rules_do_the_same` is the
//! law under it: two switches whose lookups find rules of the same actions, for every key that has what the frame's
//! key has of bits that no action writes, do the same to the frame.
//!
//! How few matches there are isn't promised. Out of memory is the only error.
//!
//! # How
//!
//! Rules are *paired* that are the same but for numbers and cookies (`pairing`). Which may be is told by a map from
//! table, priority and match, of which live rules have one each; whether they are is tested. Of rules of one priority
//! the one of the least number wins, so pairs have to keep their order where a packet may meet both rules and these
//! do different things. A pair that doesn't is left out, and its rules count as changed (`turned`). So lines that
//! stand in another order say nothing where the order says nothing.
//!
//! Where no changed rule matches, the winner of either version is one of a pair, and its partner matches too. So the
//! winners have one priority; and either they are a pair, or their pairs are in another order, and do the same
//! (`proofs/PairLaws`).
//!
//! Bits that no action writes (`kept`) are proposed field by field, and then all actions are tested against all of
//! them.
//!
//! # What is left to others
//!
//! Which packets meet no changed rule, and what becomes of the others (`table_diff`).
#![tactic(auto)]

mod changes;
mod comparing;
mod kept;
mod laws;
mod live_rule;
mod pair;
mod pairing;
mod partners;
mod twins;

pub use changes::Changes;
pub use comparing::changes_of;
pub use laws::same_rules_do_the_same;
pub use twins::are_same_actions;

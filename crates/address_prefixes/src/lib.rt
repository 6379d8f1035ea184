//! The prefixes of addresses that the rules of a table state, and which masks they rule out.
//!
//! # What?
//!
//! A classifier keeps the rules of a table by their masks. Where a mask has a prefix of an address, as that of a route has,
//! and no rule states a prefix of this length with which the address of a packet begins, the packet matches no rule of the
//! mask. So a lookup passes over the mask, and of the address it consults just as many leading bits as decide that. It is
//! the *prefix tracking* of Open vSwitch (NSDI 2015, section 5.4; "Prefix Tracking" in lib/classifier.h). Which fields are
//! tracked is this profile's: the source and the destination of IPv4 and of IPv6.
//!
//! # What is promised
//!
//! `AreOf` (`specs/Addresses`) says of `AddressPrefixes` which rules they are of: a list of rules, whose order says
//! nothing, and neither do their numbers, priorities and actions.
//!
//! - `new` are those of no rules.
//! - `insert` adds those of a rule with a match. Where it lacks memory they are those of the same rules.
//! - `remove` takes those of one of the rules out.
//! - `test` adds to a mask just the bits that the definition `prefix_tests` of `spec_xlate` has for one mask and a key, and
//!   answers whether the lookup goes on with this mask. Where it doesn't, the key matches none of its rules.
//!
//! `MaskPrefixes` are those that a mask has. `AddressLookups` keep what was found of a key from one mask to the next,
//! in one lookup. Only `insert` takes memory.
//!
//! # How
//!
//! Each address has a trie (`tracker`) of the prefixes that rules state of it, each as often as they state it. What it
//! tells of a key doesn't depend on the mask, so it is asked for by the first mask that has a prefix of the address,
//! and kept for those after it.
//!
//! The key of a rule has no bits outside its mask, so the prefix that it states are the first bits of its key.
//!
//! # What it costs
//!
//! A test takes a walk of the trie for each address of which the mask has a prefix and no mask before it had one, and
//! else a few steps. An insertion and a removal take a walk for each address of which the rule states a prefix.
//!
//! # What is left to others
//!
//! The rules themselves, and the stages of a probe, between which a mask is tested.
//!
//! The trie that tracks prefixes stands in `tracker`.
#![tactic(auto)]

mod address_prefixes;
mod field_prefix;
mod field_trie;
mod pair;
mod prefix;
mod prefix_test;
pub mod tracker;

pub use address_prefixes::{AddressLookups, AddressPrefixes, MaskPrefixes};

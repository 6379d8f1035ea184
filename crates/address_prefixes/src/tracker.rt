//! Prefixes of numbers, in a trie.
//!
//! # What?
//!
//! The rules of a table state prefixes of an address (RFC 4632), each mask those of one length. A lookup asks two things
//! of all of them together: of which lengths there is a prefix with which the address begins, and how many of its leading
//! bits decide that. With 10.0.0.0/8 and 10.1.0.0/16 the address 10.2.0.1 begins with the first and not with the second,
//! and 15 bits decide it: any address with the same 15 has the same answers. So a classifier passes over masks of longer
//! prefixes than the address has, and consults few bits for that. It is the *prefix tracking* of Open vSwitch
//! (NSDI 2015, section 5.4; "Prefix Tracking" in lib/classifier.h; the column `prefixes` of Flow_Table in
//! ovs-vswitchd.conf.db(5)).
//!
//! A `PrefixTrie` answers both by one walk down, however many prefixes there are.
//!
//! # What is promised
//!
//! Contracts see a trie as `Prefixes`: the width of its numbers, and a list of prefixes in which each stands as often as
//! it was put in and not taken out (`specs/Prefixes`). The order of the list says nothing: lists in which each prefix
//! stands as often tell the same (`proofs/AlikeLists`).
//!
//! - `new` has no prefixes of numbers of a width from 1 to 128.
//! - `insert` adds the prefix of the first bits of a number once. Where it lacks memory, the list stays.
//! - `remove` takes one out once, which is there.
//! - `look` answers `Found`: bit n of `lengths` is 1 exactly where the number begins with a prefix of n + 1 bits, and
//!   `bits` is the length that the definition `deciding` of `spec_xlate` gives.
//!
//! `look` and `remove` take no memory, so they can't fail.
//!
//! # How
//!
//! The paths are compressed, as in PATRICIA (D. R. Morrison, Journal of the ACM 15, 1968). A node has a prefix, as a
//! number that begins with it and a length, and how often it stands there, which may be never. Below it are the longer
//! prefixes that begin with it, in two tries: those whose next bit is the one that the node's number has there, and the
//! others. So a path without branches is one node, and a node above others needs no number of its own: it takes that of
//! the node below.
//!
//! One count tells all at a node: how many leading bits the number that is looked up has in common with the node's, by
//! their exclusive or. Fewer than the prefix has: the number has just as many in common with everything below, so one more
//! decides for all of it, and the walk ends. As many: it goes on to the other side. More: to the same side. What stands on
//! the side that it leaves has as many bits in common with it as the node's prefix has, so one more decides.
//!
//! # What it costs
//!
//! A walk takes a step for each node on the way, at most as many as the number has bits, and about the logarithm of the
//! prefixes where these are spread evenly. A node has a place of its own in memory. An insertion makes at most two nodes
//! and a removal drops at most two.
//!
//! # What is left to others
//!
//! Which fields have tries, and what a lookup makes of the answers.

mod common;
mod found;
mod insert;
mod look;
mod prefix_trie;
mod remove;
mod trie;

pub use found::Found;
pub use prefix_trie::PrefixTrie;

//! Matches in a few bits, by which most of those that a match doesn't cover are passed over.
//!
//! # What?
//!
//! An edit without `strict` acts on each rule whose match is its own or one more specific. To find them, all rules have to be
//! tested, and a match has 352 bytes. A *signature* has 16, and tells of most rules that they aren't covered: only those
//! that it lets through are tested. That is *superimposed coding*, which is usual for partial matches.
//!
//! # What is promised
//!
//! - `Signature::of` is the definition `signature_of` of a key and a mask (specs/Signatures.antt).
//! - `includes` is its `includes`: whether a signature has all bits of another.
//! - The signature of a rule includes that of each edit that reaches it, and of each that names it
//!   (`rules_include_their_edits`). So where `includes` says no, the edit doesn't act on the rule; where it says yes, it may.
//! - No call takes memory, and none can fail.
//!
//! # How
//!
//! A more specific match states all bits that the other states, alike. So the bits that the other states to be 1 are among
//! those that it states to be 1, and so it is with 0. Both stay so where the bits of all fields are laid over one another in
//! one word. The fields are shifted, so that those which rules state together lie over one another as little as may be: those
//! of Ethernet, and those of IPv4 with the ports. Of matches of one field up to 64 bits wide, nothing is lost.
//!
//! # What is left to others
//!
//! The test of the matches themselves, and where the signatures of rules are kept.

mod signature;

pub use signature::{Signature, rules_include_their_edits};

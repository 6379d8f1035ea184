//! The round trip of the flow text: what is printed of what was read reads back. Each law is the contract of a function that
//! does nothing, so that to call it is to have its facts.
//!
//! # What is promised
//!
//! - Each match that is read can be spelled (`read_match_can_be_spelled`), so that its print reads back as that match,
//!   alone and before a list of actions (`read_match_reads_back`).
//! - Each list of actions that is read can be spelled where its writes can (`read_actions_can_be_spelled`), so that its
//!   print reads back as that list (`read_actions_read_back`). A `load` to some bits of a field that takes no mask, or one
//!   that writes a VLAN without its tag bit, is read and has no other spelling than its own.
//! - The flow of an edit that was read reads back from both prints (`read_edit_reads_back`).
//! - Prints tell apart what was read: two matches, or two such lists, print alike exactly where they are the same
//!   (`prints_tell_matches_apart`, `prints_tell_actions_apart`).
//!
//! # How
//!
//! What a value states is within the range of its field (`PartsRead`, `StatableParts`), and no part that is read states a
//! bit of one before it. So fields that are stated whole are stated by one part, and of the others the parts state together
//! what the field's name can state (`Gathered`, `FieldsSpelled`). Parts are kept by the type and the protocol that are kept
//! themselves, so that the match states both, and what a kept part needs is what the printed name of its field needs
//! (`Needs`). Actions are taken one by one.
//!
//! # What is left to others
//!
//! That what can be spelled reads back is the law of `matches` for matches, and of `text_laws` for lists of actions.
//! That the order of items counts for nothing is the law of `item_order`.

mod actions_read;
mod edits_read;
mod matches_read;
mod prints;

pub use actions_read::{read_actions_can_be_spelled, read_actions_read_back};
pub use edits_read::read_edit_reads_back;
pub use matches_read::{read_match_can_be_spelled, read_match_reads_back};
pub use prints::{prints_tell_actions_apart, prints_tell_matches_apart};

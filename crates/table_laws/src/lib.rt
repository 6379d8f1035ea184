//! The laws of tables: bundles of edits, lookups and translations, and why a megaflow may stand for more packets than the
//! one that made it.
//!
//! `spec_tables` tells bundles by how many edits stand through each of them, and says of such a list whether each bundle
//! has an edit and all together have so many (`AreBundles`). `spec_xlate` says by recursions what a translation does and
//! which bits it consults. Recursions can be wrong in ways that nobody sees. Here stand the facts by which a reader can
//! believe them, each as the contract of a function that does nothing: to call one is to have its facts.
//!
//! # What is promised
//!
//! - *Wildcard soundness* (`consulted_is_sound`): packets whose keys agree on the bits that the translation of the
//!   first one consults are translated alike, and their translations consult the same bits. It holds for all keys that
//!   a frame can have and more: those within the widths of the fields whose metadata and registers are 0. It holds for
//!   any rules, sound or not, and under every limit. A mask that covers those bits serves as well
//!   (`covering_mask_is_sound`).
//! - The same of one lookup (`lookup_is_sound`), for any keys, so for those too that actions have changed.
//! - A lookup finds the best rule (`winner_is_best`), consults the whole mask of that rule
//!   (`lookup_consults_the_winners_mask`), and consults the same whether one goes by rules or by their distinct masks
//!   (`lookup_goes_by_masks`), in any order. That is what lets a classifier keep one hash table for each mask.
//! - What commit appends turns the base key into the current one (`commit_turns_base_into_current`), for keys whose
//!   `vlan_tci` is 0 or that of a tag, as it is in the key of a frame. Every action keeps it so
//!   (`actions_keep_proper_tags`).
//! - The mask holds the ingress port and the Ethernet type whole, no register, and no bit outside of the fields
//!   (`consulted_is_a_mask`).
//! - Through a later bundle stand no fewer edits, through none stand more than there are, and there are no more bundles
//!   than edits (`bundles_have_their_edits`). The edits of a bundle follow those of the one before, and are as many as its
//!   number tells (`edits_of_bundles_follow_each_other`).
//!
//! # How wildcard soundness is proved
//!
//! Two translations run side by side, from keys a and b that agree on all that the first one consults. What stays true
//! at every step is said bit by bit: each bit of the current and of the base key is the same in both runs, or neither
//! run has touched it, so that it is still the bit of a in the one and of b in the other. A read consults the bits that
//! it reads, so on those a and b agree, and both runs read the same. A write consults the bits that it writes: so they
//! were the same in a and b too, and a commit, which compares base and current key, sees a difference in both runs or
//! in none. Without that, a write of the number that is already there would be a change for one packet and none for
//! the other. The tags of a packet are popped and pushed as a whole; so of them as a group the fact is that they are
//! the same in both runs, or unchanged since the last commit in both.
//!
//! A lookup compares the current keys with the rules of one table. What it consults of one mask, stage by stage and
//! prefix by prefix, decides whether each rule of that mask matches, and where the mask ends, so both runs go through
//! the same bits. Masks whose rules all have less priority than the winner cannot change the winner.
//!
//! # What is left to others
//!
//! What the edits do to the rules (`rule_tables`), and that what is read has such bundles (`edit_script`).
//! That a program's translation is the one defined, with exactly the bits defined, is the contract of the crates that
//! translate. That an entry of a cache is right for all packets that it covers is proved from wildcard soundness where
//! entries are kept.
#![tactic(auto)]

mod lookups;
mod order;
mod translations;

pub use lookups::{
    empty_table_decides_nothing, lookup_consults_the_winners_mask, lookup_goes_by_masks,
    lookup_is_sound, winner_is_best,
};
pub use order::{bundles_have_their_edits, edits_of_bundles_follow_each_other};
pub use translations::{
    actions_keep_proper_tags, commit_turns_base_into_current, consulted_is_a_mask,
    consulted_is_sound, covering_mask_is_sound,
};

//! The rules of one version of the flow tables, found by their masks: an index of the store of all rules.
//!
//! # What?
//!
//! A translation looks a key up in one table after another, and a plain scan would test every rule of each. Rules of
//! few masks are usual, however many they are: 10,000 routes of one length have one. So the rules of a table that have
//! the same mask stand in one *subtable*, by their keys in a hash map, and a lookup probes each mask instead of each
//! rule. That is *tuple space search*. `Tables` has all tables of one version so.
//!
//! A lookup also tells which bits of the key it *consulted*: every key that is the same on them has the same winner by
//! the same bits, so that an answer can be kept under them. Too few make such an answer false, and too many make it
//! serve fewer packets. Which bits they are is the definition `consults` of `spec_xlate`, which is exact.
//!
//! # What is promised
//!
//! `Tables` are over a store (`rule_tables::VersionedRules`), which has the rules of all versions. Contracts see them
//! as a `Version` of its history: the number and the rules (`specs/Versions`).
//!
//! - `new` is version 0, which has no rules.
//! - `look` answers the number of the rule that wins for a key in a table, as the definition `winner` finds it by a
//!   scan, and adds to `consulted` the bits that `consults` has for this table and key, no fewer and no more. It takes
//!   no memory, so it can't fail.
//! - `actions` are those that a live rule has in this version.
//! - `advance` leads to the next version. Where it lacks memory the version stays, and so do all answers.
//!
//! So two copies of the tables over one store that have the same version are seen alike, and answer alike, whichever of
//! them is published.
//!
//! # How
//!
//! What an edit does is the store's to know. Of the rules of its version the index keeps what lookups read, which is
//! neither cookies nor actions: contracts within see the rules *bare* (`bare` of `rule_tables`), and tables that have
//! some bare rules have the rules as well (`proofs/Seen`). The actions of a winner are read in the store, at the
//! version.
//!
//! The rules of one mask are a subtable of `staged_lookup`. Its probe ends at the first stage on which none of them
//! agrees with the key, and else tells the rule that wins. So a mask whose rules can't match by a first part of it
//! consults that part alone. Beside it are kept:
//!
//! - of each mask its *priorities*, sorted, each with how many rules have it;
//! - of each table the *prefixes* of the addresses that its rules state, in a trie for each address
//!   (`address_prefixes`). They tell of which lengths a key begins with one, and how many leading bits decide that.
//!   They are asked between the second stage and the third, where a probe is made in two steps: no rule of a mask
//!   matches a key that begins with none of the prefixes of its length.
//!
//! The subtables of a table stand in a hash map by their masks, and beside it is the order in which `look` goes over
//! them: by falling greatest priority, as Open vSwitch has it (NSDI 2015, section 5.2; `subtables_map` and `subtables`
//! of lib/classifier.h). It has the places of the subtables in the map, of 4 bytes each, so that a subtable stays where
//! it is as others come and rules change. `look` goes along the order once, and ends at the first subtable that has no
//! priority as great as that of the best rule so far: neither that mask nor those behind it can win, and they consult
//! nothing. Each mask that it went over reaches the winner's priority, since the winner is in one of them and those
//! before that one have none less; so it went over just the masks that consult their bits (`proofs/PassLaws`). Where a
//! rule that comes or goes changes the greatest priority of its mask, the place of the subtable moves within the order
//! (`order`). A mask whose last rule goes leaves the map, where the last subtable takes its place, which then stands in
//! the order in place of the last one's.
//!
//! `advance` asks the store which rules its next version brings, and which it takes away. Nobody sees the tables on the
//! way, so all memory is taken first: what came is put in, and where memory lacks taken out again, the last first. Then
//! what went is taken out, which takes none. What a modify gives is no part of the index, so that it changes nothing
//! here.
//!
//! # What it costs
//!
//! - A lookup takes, for each mask that it goes over, one probe for each stage that has bits of the mask of its own and
//!   leaves some to later ones, up to the one that ends it, and one for the rules themselves, however many rules have
//!   the mask. A probe takes no hash where all rules of the mask are alike under the stage, as routes are in the
//!   Ethernet type, and seldom one where no rule has the key (`masked_map`).
//! - The first mask of a lookup that has a prefix of an address takes a walk of its trie, of a step for each node on
//!   the way. Those after it take none, so the time of a lookup grows by the masks that it goes over, and hardly by the
//!   prefixes.
//! - A rule that comes or goes finds the subtable of its mask by one hash, however many masks there are, and then takes
//!   a few probes and a walk of each trie. The sorted lists are of different priorities, so a rule that comes moves
//!   what stands after its place in one only where no rule of the mask has the priority yet, and one that goes only
//!   where no other rule has it. Else they change a count. A rule that comes and goes within one bundle costs nothing
//!   here.
//! - Where it brings a new mask, or changes the greatest priority of one, where the mask belongs in the order is found
//!   by a binary search, and the places behind, of 4 bytes each, move by one. A mask that stood there before, or goes,
//!   is first found by a pass over these, and a mask that goes takes a second one.
//! - A modify costs nothing here, and the actions of a rule what `actions` of the store does: a binary search, and what
//!   the rule was given after the version.
//!
//! # What is left to others
//!
//! It follows no resubmit and keeps no answers. It doesn't publish versions, and an older version is asked of
//! `rule_tables`.
#![tactic(auto)]

mod by_table;
mod changing;
mod indexes;
mod lookup;
mod order;
mod sorted;
mod subtable;
mod subtables;
mod table;
mod tables;
mod threads;

pub use rule_tables::{OfAction, VersionedRules};
pub use tables::Tables;

//! The rules of one mask, looked up in stages.
//!
//! # What?
//!
//! A classifier keeps the rules of a table that have the same mask in one *subtable*, by their keys in hash maps, so that
//! one probe tells which of them a key matches: *tuple space search* (NSDI 2015, section 5.1). Most probes find none, and
//! a whole mask would be consulted for that. So a subtable is probed in four stages: metadata and registers, Ethernet, IP
//! and ARP, ports. The first on which no rule agrees with the key, by its bits and those of the stages before, ends the
//! probe. It is the *staged lookup* of Open vSwitch (section 5.3; "Staged Lookup" in lib/classifier.h).
//!
//! # What is promised
//!
//! `IsSubtableOf` (`specs/Subtables`) says of a subtable which rules it has, a list of rules of its mask, of which no two
//! have the same number. Their tables, cookies and actions say nothing here.
//!
//! - `new` has none. It takes no memory.
//! - `insert` adds a rule of the mask, whose number no other has. Where it lacks memory it has the same rules.
//! - `remove` takes the rule of a number and a key out, which is there. It takes no memory.
//! - `probe` answers `Ended` with the first stage on which no rule agrees with the key, or `Best` with the number and
//!   priority of the rule that wins of those that the key matches. So it is `Ended` exactly where none matches. It takes no
//!   memory. `probe_early` and `probe_late` do the same in two steps, for a lookup that has prefixes to test between the
//!   second stage and the third. `add_part_to` adds the bits of the mask through a stage to those of others, and
//!   `add_mask_to` all of them.
//! - `find` answers the number of the rule of a key and priority, and `better` the better of two ranks.
//!
//! # How
//!
//! Each stage knows the part of the mask that it reaches with those before, and how many rules have each key under it. A
//! stage that adds no bits to the one before isn't tested, and one that reaches the whole mask is tested by the map of the
//! rules themselves, which the last stage would ask anyway. Where all rules have the same key under a part, nothing is
//! hashed.
//!
//! Each part has a map of `masked_map`, of counts, and the whole mask one of buckets. So a key is masked, hashed and
//! compared by 40 bytes instead of 176 where the part has no bits of metadata and registers, of the addresses of IPv6
//! and ARP, nor of an inner tag, and as much less of what the maps hold is read. The parts themselves stand in the maps
//! alone, in as few bytes. Whoever probes several subtables with one key makes a `PacketKey` of it once.
//!
//! The rules with a key stand in one bucket, of their *ranks*: the priority and the number, which decide who wins.
//! Rules of one mask and one key differ in their priorities alone, so most buckets have one rank, which stands in the
//! map itself; more stand in a list of their own. No match is kept beside: whoever removes a rule has its key.
//!
//! # What it costs
//!
//! A probe takes a hash and a probe of a map for each stage that it tests, and one more for the rules themselves. Of
//! rules with one key it compares the ranks one by one; else none of it grows by the rules. An insertion and a removal
//! take two of each map by keys. An insertion takes memory where a map grows, and for the second rule of a key; a removal
//! takes none.
//!
//! # What is left to others
//!
//! Which bits a lookup consults. What prefixes tell stands between the second and the third stage, and concerns all masks
//! of a table.
#![tactic(auto)]

mod bucket;
mod buckets;
mod counts;
mod probe;
mod rank;
mod stage;
mod subtable;

pub use masked_map::{MaskUnion, PacketKey};
pub use probe::Probe;
pub use rank::{Rank, better};
pub use subtable::Subtable;

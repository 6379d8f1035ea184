//! The megaflows of a port: entries by masked keys, no two of which overlap.
//!
//! # What?
//!
//! A translation tells which bits of a packet's key it consulted. Every packet with the same bits there has the same
//! translation, so its actions are kept in a *megaflow*: a key, a mask and what to do with each packet whose key agrees
//! with the first on the mask. A few megaflows then decide most packets, without the flow tables (Pfaff et al., "The
//! Design and Implementation of Open vSwitch", NSDI 2015, section 4.2).
//!
//! Megaflows have no priorities. Two of them *overlap* where some key is covered by both, and here none do: so the
//! first one that covers a key is the only one, and a lookup can end there. The order in which masks are probed plays no
//! part in the answer, so those come first under which most packets were decided.
//!
//! # What is promised
//!
//! Contracts and definitions call a megaflow an *entry* of the table. They see the table as a list of entries in rising
//! order of their numbers, with the flow limit, the mask for which there is room, and the order of the masks
//! (`specs/Entries`).
//!
//! - `find` answers the number of the entry that covers a key, as a scan of the list finds it.
//! - `get`, `numbers`, `after` and `overlaps` answer by the list too, and `len` says what holds of any list that can
//!   come: no two entries overlap, and the numbers rise. `get_seen` answers what `get` does, wherever the entry was seen.
//! - `install` appends an entry, which must overlap none and have a greater number than all.
//! - `hit`, `change` and `pay` change one entry as their names say, and `remove` takes one out. Everything else stays.
//!   `change` answers the visits that the entry had, whose memory can be used again, and `hit` the version and the place
//!   of the actions of its entry (`Hit`), so that a hit finds the entry once.
//! - `rank` answers the masks in the order in which `find` probes them, with the number of *hits* of each: those of the
//!   entries, each once, and the numbers never rise. `hit` counts one for the mask of its entry, up to the greatest number
//!   that there is; a mask that comes anew has none, and one leaves with its last entry. No other call changes the hits of
//!   a mask that stays (`specs/Order`).
//! - Only `reserve` and `overlaps` take memory, and where that is lacking nothing changed. What `reserve` made room for
//!   is kept until the next `install`, whatever is removed or changed in between.
//!
//! # How
//!
//! The entries of one mask stand in one *subtable*, which has the number of each at its key under that mask, hashed. A
//! lookup masks the key by one mask after the other and probes its subtable: one hash and one probe for each mask,
//! however many entries have it. A subtable goes with its last entry, so that no lookup probes an empty one. What it has
//! by keys is a map of `masked_map`: under most masks that makes, hashes and compares 40 bytes of a key in place of its
//! 176, and nothing is hashed where the subtable has one entry.
//!
//! The subtables stand by falling number of hits. A hit mostly only counts: a subtable has to move where the one before it
//! has as many hits as it had. It then changes places with the first of those, which a binary search finds. A new mask
//! comes last, and one that goes leaves the others in their order.
//!
//! With each entry stands the place where the subtable of its mask was seen last. So a hit compares that mask with the
//! one of the entry, and hashes it only where another subtable stands there now. The place is a hint: nothing but the
//! time of a hit depends on it.
//!
//! `overlaps` goes by subtables too. Where the new mask covers that of a subtable, at most one entry there overlaps, and
//! a probe finds it. Else each entry of the subtable is tested. So a new mask that covers all others costs one probe for
//! each, and takes memory only where something overlaps.
//!
//! The entries themselves stand in a hash map by their numbers. Where an entry stands there is a hint too: `hit` tells it,
//! and whoever hands it to `get_seen` or `hit` later spares the hash, as long as no removal moved the entry. The numbers
//! stand in one sorted list beside it, which a walk over the entries goes by. Whoever installs gives the greatest number so
//! far, so it is appended. A removal finds its place by a binary search and moves the numbers behind it.
//!
//! `reserve` makes room in each of these, and an empty subtable of the mask, for the case that it is new or its last entry
//! goes before the next one comes. A subtable that is left of an earlier call serves where it is of the same mask.
//!
//! # What is left to others
//!
//! - Which entries are right: that the actions and the mask of an entry are those of a translation is for the board to
//!   know. Its actions are a place among lists that the board keeps.
//! - The flow limit is only kept and told. The board compares it with `len`.
//! - Counts of entries only grow by `hit`, which asks that they fit.
#![tactic(auto)]

mod entry;
mod live;
mod megaflows;
mod overlaps;
mod placed;
mod ranks;
mod subtables;

pub use entry::Entry;
pub use megaflows::{Hit, Megaflows};

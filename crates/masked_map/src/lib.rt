//! Maps from keys under one mask to values, small where the mask allows.
//!
//! # What?
//!
//! A lookup by masks takes the key of a packet under each of them, and looks it up in that mask's hash map. A whole key has
//! 176 bytes (`ovs_fields`), and to make, to hash and to compare such keys, and to fetch them from memory, is most of what
//! the lookup costs. Few masks need them: most have no bits of metadata and the registers, of the addresses of IPv6 and the
//! hardware addresses of ARP, nor of an inner tag, the *wide* fields here, and a key under such a mask is 0 there. Open
//! vSwitch has its flows and masks without what is 0 for the same reason (`miniflow` and `minimask` in lib/flow.h). Here
//! the other fields stand in 40 bytes, the *compact* ones. Since all keys of a map are under its mask, a map is of one of
//! two kinds, and that of a mask without bits of wide fields has compact keys only.
//!
//! # What is promised
//!
//! Contracts see a mask and a key as lists with a number for each field, as those of `ovs_fields` do, and of a map its mask,
//! `mask_of m`, its entries, `entries_of m`, and what stands at a key, `value_at m key` (specs/Maps.antt). Of which kind a
//! map is, none of them says.
//!
//! - `new` has the bits of a mask, and no entries. `add_mask_to` adds those bits to those of other masks, a `MaskUnion`,
//!   which `union_of` sees (specs/Unions.antt). `MaskUnion::of` begins with the bits of one mask, and `mask` has all of them.
//! - `get` is what stands at a key under the mask, and `get_exact` at a key as it is: nothing, if it has other bits. A
//!   `PacketKey` is a key for `get`.
//! - `insert` and `swap_remove` change what stands at a key under the mask, and give what stood there. At all others the
//!   same stands as before.
//! - `add_agreeing` finds the values at keys that agree with one on the bits of another mask, entry by entry.
//! - `reserve` makes room for a key, and changes nothing else. Only it and `add_agreeing` take memory, and so can fail:
//!   `insert` has to have room, if the key isn't there.
//!
//! # How
//!
//! The two kinds are an `IndexMap` by compact fields beside a mask of compact fields, and one by whole keys beside a whole
//! mask. `CompactMask::of` decides: it fails where a wide field has bits. Compact fields are equal exactly where the
//! whole keys would be, and feed a hash function what these would, so both kinds obey the same clauses.
//!
//! A packet's key is looked up under one mask after another, and is under most of them in no map. So a `PacketKey` has its
//! compact fields too, which are taken from all over the whole key once, and `get` masks 40 bytes by 40 others. It has them
//! in five words as well, those that they feed to a hash function (`KeyWords`), and so has a map its mask: the words of the
//! key under the mask are those of both, and-ed, and keys are equal where their words are. A map of one key compares these.
//!
//! Each map of more has a Bloom filter (`KeyFilter`), with one bit for the *mark* of a key, which is made of its words. So
//! no field is masked for it, and it takes a fraction of what the hash does. Where the bit isn't set, no key in the map is
//! this one (`RulesOut` in specs/Filters.antt), and nothing is hashed or compared. Of its bits at most one in eight is set,
//! so that it rules most keys out that aren't there; how many, nothing says. A key that goes leaves its bit behind. Where so
//! many are set, the filter is made anew from the keys that are there.
//!
//! The bits of compact masks are added to one another in 40 bytes too, and to a whole mask at the end.
//!
//! No call lends a value to be written: `get` reads one, and `insert` puts another in its place.
//!
//! # What it costs
//!
//! A look-up masks, hashes and compares one key, compact or whole; where a map has one key it hashes nothing, and nor does
//! it for a compact key that the filter rules out. `add_mask_to` reads 40 bytes of a compact mask, and 176 of a whole one. An
//! entry takes 40 bytes for a compact key, with one or two of the filter, and 176 for a whole one, beside the value, and the
//! place of it in a table of hashes. The order of the entries is that of their coming until one goes, whose place the last
//! one takes. `add_agreeing` goes over all of them.
//!
//! # What is left to others
//!
//! Which masks there are, and what stands at keys under them.
#![tactic(auto)]

mod compact_map;
mod compact_mask;
mod field_list;
mod fields;
mod index_map;
mod key_filter;
mod key_words;
mod map;
mod map_mask;
mod mask_union;
mod packet_key;

pub use map::MaskedMap;
pub use mask_union::MaskUnion;
pub use packet_key::PacketKey;

//! Named fields: how flows speak of a packet's key.
//!
//! # What?
//!
//! A key has a number for each of its fields, and flows name them, parts of them, or bits of those parts: `reg0[0..15]`,
//! `vlan_vid`, `arp_spa` (ovs-fields(7)). Whoever acts as a flow says reads and writes by these names, and has to ask what
//! the packet is: `tcp_dst` of a packet that isn't TCP isn't written.
//!
//! # What is promised
//!
//! - `named` gives what a name stands for, as the one table of `spec_actions` has it.
//! - `read_slice` is the number that bits of a named field are, and `slice_bits` says which bits these are; `low_bits` are
//!   the n least bits of a number.
//! - `write_bits` replaces bits of a named field, as far as a write may change them, and `write_field` those of a field of
//!   the key; all else stays. A `vlan_tci` that a write leaves without its tag bit takes the outer tag away.
//! - `holds` tells whether a packet is what a write needs.
//! - A key holds at most two VLAN tags: `outer_tag` and `inner_tag` are these, `is_tagged` and `is_full` tell whether there is
//!   one, and whether there are two, `push_tag` and `pop_tag` add and take away an outer one, and `set_tag` gives it a content.
//! - No call takes memory, and none can fail. Each is exactly what its definition in `spec_xlate` says, for every key.
//!
//! # How
//!
//! The bits of a named field are shifted to their place in the field of the key, and read and written there. Where a slice
//! or a value is beyond its name, a shift could lose bits; so they have to be sound, as those of flows that are read are.
//!
//! # What is left to others
//!
//! The spelling of names and slices, and which bits of a key a read or a write consults.
#![tactic(auto)]

mod names;
mod prerequisites;
mod slices;
mod tags;

pub use names::{NamedBits, named};
pub use prerequisites::holds;
pub use slices::{low_bits, read_slice, slice_bits, write_bits, write_field};
pub use spec_actions::{NamedField, Prerequisite, Slice};
pub use tags::{
    TAG_BIT, VlanTag, inner_tag, is_full, is_tagged, outer_tag, pop_tag, push_tag, set_tag,
};

//! Fields, keys and masks of a packet, after ovs-fields(7).
//!
//! A packet is classified by its fields. A *key* has a number for each field and a *mask* a number whose bits say
//! which bits of the field count; definitions see both as lists of these numbers, in the order of the fields.
//!
//! - `Fields`: the one table of the fields, with the number, width, stage and printed form of each.
//! - `Keys`: two keys *agree* under a mask where they have the same bits wherever the mask has 1; a mask *covers*
//!   another where it has all its bits; two pairs of key and mask *overlap* where some key agrees with both.
//! - `Stages`: where the stages of a lookup end, and the part of a mask that each reaches.
//! - `Protocols`: the numbers by which frames and keys say what they carry.
//! - `Hash`: the 64-bit hash of a key (FNV-1a), by which the exact-match cache finds its slots.
//!
//! `ovs_fields` has the compact types that programs use, with these lists as what contracts see of them.
#![tactic(auto)]

mod field_id;

pub use field_id::FieldId;

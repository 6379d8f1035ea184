//! Hints at the places where keys are kept. They only save time: nothing rests on what a hint says.

use ovs_fields::{FieldId, Key};
use std::alloc::{AllocError, Global};

/// How many bits number a hint.
const HINT_BITS: u32 = 12;

/// How many hints a cache has.
const HINT_COUNT: usize = 1 << HINT_BITS;

/// An odd number near 2^64 divided by the golden ratio: multiplied by it, numbers that are close come far apart.
const SPREAD: u64 = 0x9e37_79b9_7f4a_7c15;

/// Where a key may be kept.
#[derive(Clone, Copy)]
struct Hint {
    /// One more than the place, or 0 where it tells none.
    place: u16,
    /// The mark of the key. Most other keys of this hint have another, and needn't be compared with what is kept.
    mark: u16,
}

/// Where keys may be kept.
#[derive(Drop)]
pub(crate) struct Hints {
    hints: Vec<Hint>,
}

impl Hints {
    /// Hints that tell nothing.
    pub(crate) fn new(alloc: Global) -> Result<Hints, AllocError> {
        let hints = vec![in alloc; Hint { place: 0, mark: 0 }; HINT_COUNT]?;
        Ok(Hints { hints })
    }

    /// The place where a key may be kept.
    pub(crate) fn place_for(&self, key: &Key) -> Option<usize> {
        let mixed = mixed(key);
        let hint = *self.hints.get(hint_of(mixed))?;
        if hint.mark != mark_of(mixed) {
            return None;
        }
        usize::from(hint.place).checked_sub(1)
    }

    /// A key is kept at a place, which is counted from 1.
    pub(crate) fn tell(&mut self, key: &Key, place: u16) {
        let mixed = mixed(key);
        if let Some(hint) = self.hints.get_mut(hint_of(mixed)) {
            let mark = mark_of(mixed);
            *hint = Hint { place, mark };
        }
    }
}

/// A number of a key, whose upper bits are mixed best. Few fields make it, so that it costs little: those by which
/// connections differ.
fn mixed(key: &Key) -> u64 {
    let hardware = key.get(FieldId::DlSrc) as u64 ^ (key.get(FieldId::DlDst) as u64) << 16;
    let ipv4 = (key.get(FieldId::NwSrc) as u64) << 32 ^ key.get(FieldId::NwDst) as u64;
    let ipv6 = low_half(key.get(FieldId::Ipv6Src)) ^ low_half(key.get(FieldId::Ipv6Dst)) << 8;
    let ports = (key.get(FieldId::TpSrc) as u64) << 16 ^ key.get(FieldId::TpDst) as u64;
    (hardware ^ ipv4 ^ ipv6 ^ ports).wrapping_mul(SPREAD)
}

/// Which hint is a key's, by its number.
fn hint_of(mixed: u64) -> usize {
    (mixed >> (u64::BITS - HINT_BITS)) as usize
}

/// The mark of a key, of bits of its number that don't tell the hint.
fn mark_of(mixed: u64) -> u16 {
    (mixed >> 32 & 0xffff) as u16
}

/// The lower 64 bits of an address of IPv6.
#[inline]
fn low_half(address: u128) -> u64 {
    (address % (1 << 64)) as u64
}

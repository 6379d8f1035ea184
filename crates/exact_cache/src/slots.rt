//! The slots of a cache, of which a key may stand in two.

ghost use Rattle.std.specs.Prelude.{◌≡◌, ◌==◌, ◌<◌, ◌/◌, ◌%◌, ◌^◌, ℕ, [], Some, IfOk, if◌then◌else◌};
ghost use Rattle.std.specs.Option.{is_none, option_copied};
ghost use Rattle.spec_board.specs.Cache.{slot_count, slot_for};
ghost use Rattle.ovs_fields.specs.Packed.{numbers};
ghost use Rattle.exact_cache.specs.Kept.{slots_view, tag_of, keeps, kept_of, entry_in, kept_in, slot_of_two, IsCache};

use crate::hashed_key::HashedKey;
use crate::kept::Kept;
use std::alloc::{AllocError, Global};

/// How many slots a cache has.
pub(crate) const SLOT_COUNT: u64 = 8192;

/// What the index has for a slot.
#[derive(Clone, Copy)]
pub(crate) struct Indexed {
    /// One more than the place where `kept` has what the slot keeps, or 0 if it was never written.
    pub(crate) place: u16,
    /// The tag of what the slot keeps (`tag_of`).
    pub(crate) tag: u16,
}

/// What each slot that was written keeps.
#[derive(Drop)]
pub(crate) struct KeptSlots {
    /// By the numbers of the slots.
    pub(crate) index: Vec<Indexed>,
    /// What the slots keep, in the order of their first writes.
    pub(crate) kept: Vec<Kept>,
}

/// Slots none of which was written, with room for all.
pub(crate) fn empty_slots(alloc: Global) -> Result<KeptSlots, AllocError>
    ensures cache { IfOk result (λ slots. IsCache slots) }
    ensures empty { IfOk result (λ slots. slots.kept.items ≡ []) }
{
    let index = vec![in alloc; Indexed { place: 0, tag: 0 }; SLOT_COUNT as usize]?;
    let kept = Vec::with_capacity(alloc, SLOT_COUNT as usize)?;
    Ok(KeptSlots { index, kept })
}

/// The first of the two slots of the keys with a hash, by its low bits.
pub(crate) fn first_slot(hash: u64) -> u32
    ensures { result ≡ hash % slot_count }
{
    (hash % SLOT_COUNT) as u32
}

/// The second of the two slots of the keys with a hash, by its upper half.
pub(crate) fn second_slot(hash: u64) -> u32
    ensures { result ≡ hash / 2 ^ 32 % slot_count }
{
    ((hash >> 32) % SLOT_COUNT) as u32
}

/// The tag of what is kept for a hash. Its bits don't number slots, so keys that share a slot mostly differ in it.
fn tag_of(hash: u64) -> u16
    ensures { result ≡ tag_of hash }
{
    (hash >> 48) as u16
}

/// What a slot keeps, where it is this key.
fn kept_of<'a>(slots: &'a KeptSlots, slot: u32, key: HashedKey<'_>) -> Option<&'a Kept>
    requires cache { IsCache slots.now }
    requires within { slot < slot_count }
    ensures { option_copied result ≡ kept_of (numbers key.entry.key.now) (kept_in slots.now slot) }
{
    let Indexed { place, tag } = slots.index[slot as usize];
    if place == 0 || tag != tag_of(key.hash) {
        return None;
    }
    let kept = &slots.kept[place as usize - 1];
    if kept.is_of(key) { Some(kept) } else { None }
}

/// Whether a slot keeps a key.
fn keeps(slots: &KeptSlots, slot: u32, key: HashedKey<'_>) -> bool
    requires cache { IsCache slots.now }
    requires within { slot < slot_count }
    ensures { result ≡ keeps (numbers key.entry.key.now) (kept_in slots.now slot) }
{
    kept_of(slots, slot, key).is_some()
}

/// Whether a slot was never written.
fn is_empty(slots: &KeptSlots, slot: u32) -> bool
    requires cache { IsCache slots.now }
    requires within { slot < slot_count }
    ensures { result ≡ is_none (kept_in slots.now slot) }
{
    slots.index[slot as usize].place == 0
}

/// The entry that a slot names for a key.
pub(crate) fn entry_for(slots: &KeptSlots, slot: u32, key: HashedKey<'_>) -> Option<u32>
    requires cache { IsCache slots.now }
    requires within { slot < slot_count }
    ensures { result ≡ entry_in (numbers key.entry.key.now) (kept_in slots.now slot) }
{
    match kept_of(slots, slot, key) {
        Some(kept) => Some(kept.entry),
        None => None,
    }
}

/// The slot where a key is put.
pub(crate) fn slot_for(slots: &KeptSlots, key: HashedKey<'_>) -> u32
    requires { IsCache slots.now }
    ensures slot { result ≡ slot_for (slots_view slots.now) (numbers key.entry.key.now) }
    ensures within { result < slot_count }
{
    slot_of_two(slots, key, first_slot(key.hash), second_slot(key.hash))
}

/// Of two slots the one that keeps a key; else one that was never written; else the first.
fn slot_of_two(slots: &KeptSlots, key: HashedKey<'_>, first: u32, second: u32) -> u32
    requires cache { IsCache slots.now }
    requires first { first < slot_count }
    requires second { second < slot_count }
    ensures { result ≡ slot_of_two (numbers key.entry.key.now) first (kept_in slots.now first)
        second (kept_in slots.now second) }
{
    if keeps(slots, first, key) {
        first
    } else if keeps(slots, second, key) {
        second
    } else if is_empty(slots, first) {
        first
    } else if is_empty(slots, second) {
        second
    } else {
        first
    }
}

/// Has a slot keep a key, in place of the one that it kept, and answers one more than the place where it is kept. It
/// takes no memory.
pub(crate) fn write(slots: &mut KeptSlots, kept: Kept) -> u16
    requires cache { IsCache slots.old }
    requires within { kept.slot < slot_count }
    ensures cache { IsCache slots.new }
    ensures written { (n : ℕ) → kept_in slots.new n
        ≡ (if kept.slot == n then Some kept else kept_in slots.old n) }
{
    let slot = kept.slot as usize;
    let tag = tag_of(kept.hash);
    match slots.index[slot].place {
        0 => {
            slots.kept.push_reserved(kept);
            let place = slots.kept.len() as u16;
            slots.index[slot] = Indexed { place, tag };
            place
        }
        place => {
            slots.kept[place as usize - 1] = kept;
            slots.index[slot] = Indexed { place, tag };
            place
        }
    }
}

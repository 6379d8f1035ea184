//! One subtable for each mask: the keys of its entries under that mask, hashed, and the number of the entry at each.
//! They stand by falling number of hits, in which order lookups probe them.

ghost use Rattle.std.specs.Prelude.{◌≡◌, ◌<◌, false, Some, None, IsTrue, IfOk, OnOk, OnErr};
ghost use Rattle.indexmap.specs.IndexMap.{spare};
ghost use Rattle.masked_map.specs.Maps.{mask_of, room_of};
ghost use Rattle.spec_keys.specs.Keys.{masked};
ghost use Rattle.ovs_fields.specs.Packed.{numbers, bits};
ghost use Rattle.megaflow_table.specs.Order.{AddsMask, KeepsHits};
ghost use Rattle.megaflow_table.specs.Subtables.{number_in, order_of, ChangesOnly, SubtableChangesOnly, HasRoomUnder, HasNumbers, HasNumberUnder, AreUnderMasks, IsRanked, KeepsRoom, KeepsNumbers, IsEmptyUnder, IsFresh, IsFreshUnder, IsEmptied};

use indexmap::IndexMap;
use masked_map::{MaskedMap, PacketKey};
use ovs_fields::{Key, Mask};
use std::alloc::{AllocError, Global};

/// The entries of one mask.
#[derive(Drop)]
pub(crate) struct Subtable {
    /// How many packets entries of the mask decided, since its first one came.
    pub(crate) hits: u64,
    /// The numbers of the entries, by their keys under the mask.
    pub(crate) numbers: MaskedMap<u32>,
}

/// The subtable of each mask that an entry has.
pub(crate) type Subtables = IndexMap<Mask, Subtable>;

/// An empty subtable with room for one entry, and the mask that takes it if it is new.
#[derive(Drop)]
pub(crate) struct Fresh {
    mask: Mask,
    subtable: Subtable,
}

/// The number that a subtable has for a key.
pub(crate) fn number_in(subtable: &Subtable, key: &PacketKey<'_>) -> Option<u32>
    ensures { result
        ≡ number_in subtable.now (masked (numbers key.now.key.now) (mask_of subtable.now.numbers)) }
{
    subtable.numbers.get(key).copied()
}

fn insert_number(subtable: &mut Subtable, key: &Key, number: u32)
    requires { 0 < room_of subtable.old.numbers }
    ensures numbers { SubtableChangesOnly subtable.old subtable.new
        (masked (numbers key.now) (mask_of subtable.old.numbers)) (Some number) }
    ensures mask { mask_of subtable.new.numbers ≡ mask_of subtable.old.numbers }
    ensures hits { subtable.new.hits ≡ subtable.old.hits }
{
    subtable.numbers.insert(key, number);
}

/// Gives a key under a mask a number in the subtable of that mask, for which there is room. A new mask takes the fresh
/// one, and comes last. Answers the place of the subtable.
pub(crate) fn insert_under(
    subtables: &mut Subtables,
    fresh: &mut Option<Fresh>,
    mask: &Mask,
    key: &Key,
    number: u32,
) -> usize
    requires room { 0 < spare subtables.old }
    requires subtable { HasRoomUnder subtables.old (bits mask.now) }
    requires is_fresh { IsFresh fresh.old }
    requires has_fresh { IsFreshUnder fresh.old (bits mask.now) }
    requires were_masked { AreUnderMasks subtables.old }
    requires was_ranked { IsRanked subtables.old }
    ensures changes { ChangesOnly subtables.old subtables.new (bits mask.now)
        (masked (numbers key.now) (bits mask.now)) (Some number) }
    ensures order { AddsMask (bits mask.now) (order_of subtables.old) (order_of subtables.new) }
    ensures masked { AreUnderMasks subtables.new }
    ensures ranked { IsRanked subtables.new }
    ensures fresh { IsFresh fresh.new }
{
    if let Some(place) = subtables.get_index_of(mask) {
        let (_, subtable) = subtables.pair_mut(place);
        insert_number(subtable, key, number);
        return place;
    }
    let place = subtables.len();
    let Some(Fresh { mut subtable, .. }) = fresh.take() else {
        unreachable!()
    };
    insert_number(&mut subtable, key, number);
    let Ok(_) = subtables.insert(*mask, subtable) else {
        unreachable!()
    };
    place
}

/// Takes the number of a key under a mask out of the subtable of that mask, and tells whether that is empty now.
fn remove_number(subtables: &mut Subtables, mask: &Mask, key: &Key) -> bool
    requires { AreUnderMasks subtables.old }
    ensures changes { ChangesOnly subtables.old subtables.new (bits mask.now)
        (masked (numbers key.now) (bits mask.now)) None }
    ensures room { KeepsRoom subtables.old subtables.new }
    ensures order { order_of subtables.new ≡ order_of subtables.old }
    ensures emptied { IsTrue result → IsEmptied subtables.new (bits mask.now) }
    ensures in_use { result ≡ false → HasNumberUnder subtables.new (bits mask.now) }
{
    match subtables.get_mut(mask) {
        Some(subtable) => {
            subtable.numbers.swap_remove(key);
            subtable.numbers.is_empty()
        }
        None => false,
    }
}

/// Takes the number of a key under a mask out, and with the last one of a mask its subtable, so that no lookup probes it.
/// The others keep their order.
pub(crate) fn remove_under(subtables: &mut Subtables, mask: &Mask, key: &Key)
    requires were_masked { AreUnderMasks subtables.old }
    requires were_used { HasNumbers subtables.old }
    requires was_ranked { IsRanked subtables.old }
    ensures changes { ChangesOnly subtables.old subtables.new (bits mask.now)
        (masked (numbers key.now) (bits mask.now)) None }
    ensures room { KeepsRoom subtables.old subtables.new }
    ensures hits { KeepsHits (order_of subtables.old) (order_of subtables.new) }
    ensures used { HasNumbers subtables.new }
    ensures ranked { IsRanked subtables.new }
{
    if remove_number(subtables, mask, key) {
        subtables.shift_remove(mask);
    }
}

/// Makes room for one number in the subtable of a mask, if there is one.
pub(crate) fn reserve_under(subtables: &mut Subtables, mask: &Mask) -> Result<(), AllocError>
    ensures keeps { KeepsNumbers subtables.old subtables.new }
    ensures order { order_of subtables.new ≡ order_of subtables.old }
    ensures ok { OnOk result (HasRoomUnder subtables.new (bits mask.now)) }
{
    match subtables.get_mut(mask) {
        Some(subtable) => subtable.numbers.reserve(),
        None => Ok(()),
    }
}

/// Has a fresh subtable for a mask, where the one that there is isn't for it. Where memory is lacking that one stays.
pub(crate) fn reserve_fresh(
    alloc: Global,
    fresh: &mut Option<Fresh>,
    mask: &Mask,
) -> Result<(), AllocError>
    requires { IsFresh fresh.old }
    ensures fresh { IsFresh fresh.new }
    ensures ok { OnOk result (IsFreshUnder fresh.new (bits mask.now)) }
    ensures err { OnErr result (fresh.new ≡ fresh.old) }
{
    if !is_fresh_under(fresh, mask) {
        let subtable = empty_subtable(alloc, mask)?;
        *fresh = Some(Fresh {
            mask: *mask,
            subtable,
        });
    }
    Ok(())
}

/// Whether a fresh subtable is for this mask.
fn is_fresh_under(fresh: &Option<Fresh>, mask: &Mask) -> bool
    ensures { IsTrue result → IsFreshUnder fresh.now (bits mask.now) }
{
    match fresh {
        Some(fresh) => fresh.mask == *mask,
        None => false,
    }
}

/// An empty subtable of a mask, with room for one entry.
fn empty_subtable(alloc: Global, mask: &Mask) -> Result<Subtable, AllocError>
    ensures { IfOk result (IsEmptyUnder (bits mask.now)) }
{
    let mut numbers = MaskedMap::new(alloc, mask);
    numbers.reserve()?;
    Ok(Subtable { hits: 0, numbers })
}

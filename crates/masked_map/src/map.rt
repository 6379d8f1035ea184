ghost use Rattle.std.specs.Prelude.{◌≡◌, ◌<◌, ◌≤◌, ◌^◌, ◌++◌, ◌↔◌, [], List, ℕ, None, Some, IsTrue, OnOk, if◌then◌else◌, length};
ghost use Rattle.std.specs.Map.{lookup};
ghost use Rattle.std.specs.Option.{option_copied};
ghost use Rattle.spec_keys.specs.Keys.{masked, same, common_bits, joined};
ghost use Rattle.ovs_fields.specs.Packed.{numbers, bits};
ghost use Rattle.masked_map.specs.Compact.{list_of};
ghost use Rattle.masked_map.specs.Maps.{agreeing, listed, wanted_values};
ghost use Rattle.masked_map.specs.Unions.{union_of};

use crate::compact_map::CompactMap;
use crate::fields::CompactFields;
use crate::index_map::{put, value_of};
use crate::map_mask::MapMask;
use crate::mask_union::MaskUnion;
use crate::packet_key::PacketKey;
use indexmap::IndexMap;
use ovs_fields::{Key, Mask, agree, and, masked};
use std::alloc::{AllocError, Global};

/// The mask and the entries, by keys of one kind.
#[derive(Drop)]
pub(crate) enum Entries<V> {
    /// The mask has no bits of wide fields, so each key under it is 0 there.
    Compact { mask: MapMask, map: CompactMap<V> },
    /// Any mask.
    Whole { mask: Mask, map: IndexMap<Key, V> },
}

/// A map from keys under one mask to values.
///
/// Contracts see the bits of the mask as `mask_of m`, and the value of a key under it, a list with a number for each field, as
/// `value_at m key`.
#[derive(Drop)]
pub struct MaskedMap<V> {
    pub(crate) entries: Entries<V>,
}

impl<V: Drop> MaskedMap<V> {
    ghost use Rattle.masked_map.specs.Maps.{mask_of, entries_of, room_of, value_at, HasDistinctKeys, HasRoomAt};

    /// A map without entries. It takes no memory.
    pub fn new(alloc: Global, mask: &Mask) -> MaskedMap<V>
        ensures mask { mask_of result ≡ bits mask.now }
        ensures empty { entries_of result ≡ [] }
    {
        let entries = match MapMask::of(mask) {
            Some(mask) => Entries::Compact {
                mask,
                map: CompactMap::new(alloc),
            },
            None => Entries::Whole {
                mask: *mask,
                map: IndexMap::new(alloc),
            },
        };
        MaskedMap { entries }
    }

    /// Adds the bits of the mask to those of others.
    #[inline]
    pub fn add_mask_to(&self, union: &mut MaskUnion)
        ensures { union_of union.new ≡ joined (union_of union.old) (mask_of self.now) }
    {
        match &self.entries {
            Entries::Compact { mask, .. } => union.add_compact(&mask.bits),
            Entries::Whole { mask, .. } => union.add_whole(mask),
        }
    }

    /// How many keys it has.
    pub fn len(&self) -> usize
        ensures len { result ≡ length (entries_of self.now) }
        ensures small { result < 2 ^ 63 }
        ensures distinct { HasDistinctKeys self.now }
    {
        match &self.entries {
            Entries::Compact { map, .. } => map.by_key.len(),
            Entries::Whole { map, .. } => map.len(),
        }
    }

    /// Whether it has no keys.
    pub fn is_empty(&self) -> bool
        ensures { IsTrue result ↔ (entries_of self.now ≡ []) }
    {
        self.len() == 0
    }

    /// Makes room for one more key. The only error is out of memory.
    pub fn reserve(&mut self) -> Result<(), AllocError>
        ensures mask { mask_of self.new ≡ mask_of self.old }
        ensures entries { entries_of self.new ≡ entries_of self.old }
        ensures keeps { room_of self.old ≤ room_of self.new }
        ensures room { OnOk result (0 < room_of self.new) }
    {
        match &mut self.entries {
            Entries::Compact { map, .. } => map.reserve(),
            Entries::Whole { map, .. } => map.reserve(1),
        }
    }

    /// The value of a key under the mask.
    #[inline]
    pub fn get(&self, key: &PacketKey<'_>) -> Option<&V>
        ensures { option_copied result
            ≡ value_at self.now (masked (numbers key.now.key.now) (mask_of self.now)) }
    {
        match &self.entries {
            Entries::Compact { mask, map } => map.get(key, mask),
            Entries::Whole { mask, map } => get_whole(map, mask, key.key),
        }
    }

    /// The value of a key, if the mask has all of its bits.
    pub fn get_exact(&self, key: &Key) -> Option<&V>
        ensures { option_copied result ≡ value_at self.now (numbers key.now) }
    {
        match &self.entries {
            Entries::Compact { map, .. } => match CompactFields::of_key(key) {
                Some(fields) => value_of(&map.by_key, &fields),
                None => None,
            },
            Entries::Whole { map, .. } => value_of(map, key),
        }
    }

    /// Gives a key under the mask a value. It takes no memory: the key is there, or there is room for it.
    pub fn insert(&mut self, key: &Key, value: V) -> Option<V>
        requires { HasRoomAt self.old (masked (numbers key.now) (mask_of self.old)) }
        ensures mask { mask_of self.new ≡ mask_of self.old }
        ensures old { result ≡ value_at self.old (masked (numbers key.now) (mask_of self.old)) }
        ensures values { (q : List ℕ)
            → value_at self.new q
            ≡ (if same q (masked (numbers key.now) (mask_of self.old)) then Some value
            else value_at self.old q) }
    {
        match &mut self.entries {
            Entries::Compact { mask, map } => map.insert(mask.bits.fields.masked(key), value),
            Entries::Whole { mask, map } => put(map, masked(key, mask), value),
        }
    }

    /// Takes the value of a key under the mask out. It takes no memory.
    pub fn swap_remove(&mut self, key: &Key) -> Option<V>
        ensures mask { mask_of self.new ≡ mask_of self.old }
        ensures old { result ≡ value_at self.old (masked (numbers key.now) (mask_of self.old)) }
        ensures values { (q : List ℕ)
            → value_at self.new q
            ≡ (if same q (masked (numbers key.now) (mask_of self.old)) then None
            else value_at self.old q) }
        ensures room { room_of self.old ≤ room_of self.new }
    {
        match &mut self.entries {
            Entries::Compact { mask, map } => map.swap_remove(&mask.bits.fields.masked(key)),
            Entries::Whole { mask, map } => map.swap_remove(&masked(key, mask)),
        }
    }

    /// Adds the values at keys that agree with a key on the bits of a mask that the map's has too, in the order of the
    /// entries. The only error is out of memory.
    pub fn add_agreeing(&self, found: &mut Vec<V>, key: &Key, mask: &Mask) -> Result<(), AllocError>
    where
        V: Copy,
        ensures found { OnOk result
            (found.new.items
            ≡ found.old.items ++ agreeing (numbers key.now)
            (common_bits (bits mask.now) (mask_of self.now)) (entries_of self.now)) }
        ensures distinct { HasDistinctKeys self.now }
    {
        let _ = self.len();
        match &self.entries {
            Entries::Compact { mask: own, map } => {
                let common = own.bits.fields.common(mask);
                add_with_bits(found, &map.by_key, &common.masked(key), &common)
            }
            Entries::Whole { mask: own, map } => add_whole(found, map, key, &and(mask, own)),
        }
    }
}

/// The value of a key under a mask. It is a call of its own, so that look-ups of compact keys save no registers for it.
#[inline(never)]
fn get_whole<'a, V>(map: &'a IndexMap<Key, V>, mask: &Mask, key: &Key) -> Option<&'a V>
    ensures { option_copied result
        ≡ lookup (same (masked (numbers key.now) (bits mask.now))) (listed numbers map.now.entries) }
{
    value_of(map, &masked(key, mask))
}

/// Adds the values at fields that have the wanted bits of these of a mask.
fn add_with_bits<V: Copy>(
    found: &mut Vec<V>,
    map: &IndexMap<CompactFields, V>,
    wanted: &CompactFields,
    mask: &CompactFields,
) -> Result<(), AllocError>
    ensures { OnOk result
        (found.new.items
        ≡ found.old.items ++ wanted_values (list_of wanted.now) (list_of mask.now) (listed list_of map.now.entries)) }
{
    'entries: for (fields, value) in map.iter() {
        if fields.has_bits(wanted, mask) {
            found.push(*value)?;
        }
    }
    Ok(())
}

/// Adds the values at keys that agree with a key on a mask.
fn add_whole<V: Copy>(
    found: &mut Vec<V>,
    map: &IndexMap<Key, V>,
    key: &Key,
    mask: &Mask,
) -> Result<(), AllocError>
    ensures { OnOk result
        (found.new.items
        ≡ found.old.items ++ agreeing (numbers key.now) (bits mask.now) (listed numbers map.now.entries)) }
{
    'entries: for (own, value) in map.iter() {
        if agree(key, own, mask) {
            found.push(*value)?;
        }
    }
    Ok(())
}

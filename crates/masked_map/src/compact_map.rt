//! Values by compact fields. Most keys that aren't there need no look-up.

ghost use Rattle.std.specs.Prelude.{◌≡◌, ◌<◌, ◌≤◌, [], ℕ, List, None, Some, IfOk, OnOk, if◌then◌else◌};
ghost use Rattle.std.specs.Option.{option_copied};
ghost use Rattle.indexmap.specs.IndexMap.{index_map_len, spare};
ghost use Rattle.spec_keys.specs.Keys.{masked, same};
ghost use Rattle.ovs_fields.specs.Packed.{numbers};
ghost use Rattle.masked_map.specs.Compact.{list_of};
ghost use Rattle.masked_map.specs.Filters.{RulesOut};

use crate::fields::CompactFields;
use crate::index_map::put;
use crate::key_filter::KeyFilter;
use crate::key_words::KeyWords;
use crate::map_mask::MapMask;
use crate::packet_key::PacketKey;
use indexmap::IndexMap;
use std::alloc::{AllocError, Global};

/// A map from compact fields to values, and a filter of its keys.
#[derive(Drop)]
pub(crate) struct CompactMap<V> {
    pub(crate) by_key: IndexMap<CompactFields, V>,
    pub(crate) filter: KeyFilter,
    pub(crate) ghost filtered: { RulesOut filter by_key.entries },
}

impl<V: Drop> CompactMap<V> {
    ghost use Rattle.masked_map.specs.CompactMaps.{value_in};

    /// A map without entries. It takes no memory.
    pub(crate) fn new(alloc: Global) -> CompactMap<V>
        ensures { result.by_key.entries ≡ [] }
    {
        CompactMap {
            by_key: IndexMap::new(alloc),
            filter: KeyFilter::none(alloc),
        }
    }

    /// Makes room for one more key. The only error is out of memory.
    pub(crate) fn reserve(&mut self) -> Result<(), AllocError>
        ensures entries { self.new.by_key.entries ≡ self.old.by_key.entries }
        ensures keeps { spare self.old.by_key ≤ spare self.new.by_key }
        ensures room { OnOk result (0 < spare self.new.by_key) }
    {
        self.by_key.reserve(1)?;
        if self.filter.is_full() && !self.by_key.is_empty() {
            self.filter = filter_of(&self.by_key)?;
        }
        Ok(())
    }

    /// The value of a packet's key under a mask. A map of one key hashes nothing, and asks no filter.
    #[inline(always)]
    pub(crate) fn get(&self, key: &PacketKey<'_>, mask: &MapMask) -> Option<&V>
        ensures { option_copied result
            ≡ value_in self.now (masked (numbers key.now.key.now) (list_of mask.now.bits.fields)) }
    {
        if self.by_key.len() == 1 {
            return self.get_only(key, mask);
        }
        if !self.filter.may_have(key.mark(mask)) {
            return None;
        }
        self.get_hashed(key, mask)
    }

    /// The same in a map of one key.
    #[inline(always)]
    fn get_only(&self, key: &PacketKey<'_>, mask: &MapMask) -> Option<&V>
        requires { index_map_len self.now.by_key ≡ 1 }
        ensures { option_copied result
            ≡ value_in self.now (masked (numbers key.now.key.now) (list_of mask.now.bits.fields)) }
    {
        match self.by_key.get_index(0) {
            Some((own, value)) => { if key.is(own, mask) { Some(value) } else { None } }
            None => unreachable!(),
        }
    }

    /// The same by the hash of the masked key. It is a call of its own, so that whoever asks the filter saves no registers
    /// for it.
    #[inline(never)]
    fn get_hashed(&self, key: &PacketKey<'_>, mask: &MapMask) -> Option<&V>
        ensures { option_copied result
            ≡ value_in self.now (masked (numbers key.now.key.now) (list_of mask.now.bits.fields)) }
    {
        self.by_key.get(&key.masked(&mask.bits.fields))
    }

    /// Gives a key a value. The key is there, or there is room for it.
    pub(crate) fn insert(&mut self, key: CompactFields, value: V) -> Option<V>
        requires { value_in self.old (list_of key) ≡ None → 0 < spare self.old.by_key }
        ensures old { result ≡ value_in self.old (list_of key) }
        ensures values { (q : List ℕ)
            → value_in self.new q
            ≡ (if same q (list_of key) then Some value else value_in self.old q) }
    {
        self.filter.add(KeyWords::of(&key).mark());
        put(&mut self.by_key, key, value)
    }

    /// Takes the value of a key out.
    pub(crate) fn swap_remove(&mut self, key: &CompactFields) -> Option<V>
        ensures old { result ≡ value_in self.old (list_of key.now) }
        ensures values { (q : List ℕ)
            → value_in self.new q
            ≡ (if same q (list_of key.now) then None else value_in self.old q) }
        ensures room { spare self.old.by_key ≤ spare self.new.by_key }
    {
        self.by_key.swap_remove(key)
    }
}

/// A filter of the keys of a map.
fn filter_of<V>(by_key: &IndexMap<CompactFields, V>) -> Result<KeyFilter, AllocError>
    ensures { IfOk result (λ f. RulesOut f by_key.now.entries) }
{
    let mut filter = KeyFilter::for_keys(*by_key.allocator(), by_key.len())?;
    'entries: for (key, _) in by_key.iter() {
        filter.add(KeyWords::of(key).mark());
    }
    Ok(filter)
}

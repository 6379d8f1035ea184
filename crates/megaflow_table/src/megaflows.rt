ghost use Rattle.std.specs.Prelude.{◌≡◌, ◌<◌, [], ◌∷◌, ◌++◌, Some, None, length, false, nat_lt, filter, slice_get, All, IsSome, IfSome, IfOk, OnOk, OnErr};
ghost use Rattle.std.specs.List.{find};
ghost use Rattle.std.specs.Map.{values_of};
ghost use Rattle.std.specs.Option.{option_copied, option_map};
ghost use Rattle.ovs_fields.specs.Packed.{numbers, bits};
ghost use Rattle.megaflow_table.specs.Entries.{entry_of, covering, numbers_of, overlaps, changed, without, hit_at, changed_to, paid, AreDisjoint, AreRising};
ghost use Rattle.megaflow_table.specs.Order.{HasMasksOf, HasEachOnce, AreFalling, CountsHit, AddsMask, KeepsMasksOf};

use crate::entry::Entry;
use crate::live::{first_above, remove_live};
use crate::overlaps::overlapping;
use crate::placed::{Placed, place_of};
use crate::ranks::{count_hit, rank_at};
use crate::subtables::{
    Fresh, Subtables, insert_under, number_in, remove_under, reserve_fresh, reserve_under,
};
use dp_actions::Visits;
use indexmap::IndexMap;
use masked_map::PacketKey;
use ovs_fields::{Key, Mask};
use std::alloc::{AllocError, Global};
use std::marker::Model;

/// What a hit tells of its entry.
#[derive(Clone, Copy)]
pub struct Hit {
    pub version: u32,
    /// The place of its actions.
    pub actions: u32,
    /// Where the entry was seen: with that it is found next time without a hash, if it is still there.
    pub seen: usize,
}

/// The live megaflows of a port, no two of which overlap.
#[derive(Drop)]
pub struct Megaflows {
    alloc: Global,
    limit: u32,
    /// The numbers of the live entries, in rising order.
    live: Vec<u32>,
    entries: IndexMap<u32, Placed>,
    subtables: Subtables,
    /// The mask for whose next entry there is room.
    room: Option<Mask>,
    /// An empty subtable of that mask, which it takes if it is new.
    fresh: Option<Fresh>,
}

impl Model for Megaflows {
    ghost use Rattle.megaflow_table.specs.Entries.{Flows};

    ghost Value = { Flows };

    ghost use Rattle.megaflow_table.specs.Parts.{flows_in, IsTable};

    ghost view = { flows_in };

    ghost invariant = { IsTable };
}

impl Megaflows {
    /// No entries, under a flow limit, which is only kept and told. It takes no memory.
    pub fn new(alloc: Global, limit: u32) -> Megaflows
        ensures limit { result.limit ≡ limit }
        ensures entries { result.entries ≡ [] }
        ensures room { result.room ≡ None }
        ensures order { result.order ≡ [] }
    {
        Megaflows {
            alloc,
            limit,
            live: Vec::new(alloc),
            entries: IndexMap::new(alloc),
            subtables: IndexMap::new(alloc),
            room: None,
            fresh: None,
        }
    }

    /// How many entries are live. No two of them overlap, and they stand in rising order of their numbers.
    pub fn len(&self) -> usize
        ensures length { result ≡ length self.now.entries }
        ensures disjoint { AreDisjoint self.now.entries }
        ensures rising { AreRising self.now.entries }
    {
        self.live.len()
    }

    /// The flow limit.
    pub fn limit(&self) -> u32
        ensures { result ≡ self.now.limit }
    {
        self.limit
    }

    /// The numbers of the live entries, in rising order.
    pub fn numbers(&self) -> &[u32]
        ensures { result.now ≡ numbers_of self.now.entries }
    {
        &self.live
    }

    /// The live entry of a number.
    pub fn get(&self, number: u32) -> Option<&Entry>
        ensures { option_copied result ≡ entry_of number self.now.entries }
    {
        let placed = self.entries.get(&number)?;
        Some(&placed.entry)
    }

    /// The same, where the entry was seen at a place. Where it is still there, it takes no hash.
    pub fn get_seen(&self, number: u32, seen: usize) -> Option<&Entry>
        ensures { option_copied result ≡ entry_of number self.now.entries }
    {
        let _ = self.entries.len();
        match self.entries.get_index(seen) {
            Some((there, placed)) if *there == number => Some(&placed.entry),
            _ => self.get(number),
        }
    }

    /// The number of the entry that covers a key. It takes no memory, and one probe for each mask until it is found, those
    /// with the most hits first.
    pub fn find(&self, key: &Key) -> Option<u32>
        ensures { result
            ≡ option_map (λ e. e.number) (covering (numbers key.now) self.now.entries) }
    {
        let packet = PacketKey::new(key);
        'subtables: for i in 0..self.subtables.len() {
            let Some((_, subtable)) = self.subtables.get_index(i) else {
                unreachable!()
            };
            let found = number_in(subtable, &packet);
            if found.is_some() {
                return found;
            }
        }
        None
    }

    /// The mask at a place of the order in which `find` probes them, from 0, and its number of hits. It takes no memory.
    pub fn rank(&self, at: u32) -> Option<(Mask, u64)>
        ensures place { option_map (λ r. (bits r.0, r.1)) result ≡ slice_get self.now.order at }
        ensures masks { HasMasksOf self.now.entries self.now.order }
        ensures once { HasEachOnce self.now.order }
        ensures falling { AreFalling (values_of self.now.order) }
    {
        rank_at(&self.subtables, at as usize)
    }

    /// The least live number that is above a number.
    pub fn after(&self, number: u32) -> Option<u32>
        ensures { result ≡ find (λ n. nat_lt number n) (numbers_of self.now.entries) }
    {
        first_above(&self.live, number)
    }

    /// The numbers of the entries that an entry of this key and mask would overlap, in rising order.
    ///
    /// It takes a probe for each mask that this one covers, and a test for each entry of the others. The only error is out
    /// of memory.
    pub fn overlaps(&self, key: &Key, mask: &Mask) -> Result<Vec<u32>, AllocError>
        ensures { IfOk result
            (λ v. v.items
            ≡ numbers_of (filter (overlaps (numbers key.now) (bits mask.now)) self.now.entries)) }
    {
        let mut found = overlapping(self.alloc, &self.subtables, &PacketKey::new(key), mask)?;
        found.sort_unstable();
        Ok(found)
    }

    /// An entry that was seen at a place decided one more packet, of this many bytes, at this time in nanoseconds, which
    /// is a hit of its mask. A count that is full stays so. It takes no memory.
    pub fn hit(&mut self, number: u32, seen: usize, length: u32, time: u64) -> Hit
        requires { IsSome (entry_of number self.old.entries) }
        ensures version { option_map (λ e. e.version) (entry_of number self.old.entries)
            ≡ Some result.version }
        ensures actions { option_map (λ e. e.actions) (entry_of number self.old.entries)
            ≡ Some result.actions }
        ensures entries { self.new.entries ≡ changed number (hit_at length time) self.old.entries }
        ensures hits { IfSome (entry_of number self.old.entries)
            (λ e. CountsHit (bits e.mask) self.old.order self.new.order) }
        ensures room { self.new.room ≡ self.old.room }
        ensures limit { self.new.limit ≡ self.old.limit }
    {
        let Some(place) = place_of(&self.entries, number, seen) else {
            unreachable!()
        };
        let (_, placed) = self.entries.pair_mut(place);
        placed.entry.hit(length, time);
        placed.place = count_hit(&mut self.subtables, &placed.entry.mask, placed.place);
        Hit {
            version: placed.entry.version,
            actions: placed.entry.actions,
            seen: place,
        }
    }

    /// Gives an entry the actions and visits of a version, and answers the visits that it had. Its counts stay. It takes
    /// no memory.
    pub fn change(&mut self, number: u32, version: u32, actions: u32, visits: Visits) -> Visits
        requires { IsSome (entry_of number self.old.entries) }
        ensures visits { option_map (λ e. e.visits) (entry_of number self.old.entries)
            ≡ Some result }
        ensures entries { self.new.entries
            ≡ changed number (changed_to version actions visits) self.old.entries }
        ensures order { self.new.order ≡ self.old.order }
        ensures room { self.new.room ≡ self.old.room }
        ensures limit { self.new.limit ≡ self.old.limit }
    {
        let Some(placed) = self.entries.get_mut(&number) else {
            unreachable!()
        };
        placed.entry.change(version, actions, visits)
    }

    /// Leaves an entry owing nothing. It takes no memory.
    pub fn pay(&mut self, number: u32)
        requires { IsSome (entry_of number self.old.entries) }
        ensures entries { self.new.entries ≡ changed number paid self.old.entries }
        ensures order { self.new.order ≡ self.old.order }
        ensures room { self.new.room ≡ self.old.room }
        ensures limit { self.new.limit ≡ self.old.limit }
    {
        let Some(placed) = self.entries.get_mut(&number) else {
            unreachable!()
        };
        placed.entry.pay();
    }

    /// Takes an entry out. It takes no memory.
    pub fn remove(&mut self, number: u32)
        requires { IsSome (entry_of number self.old.entries) }
        ensures entries { self.new.entries ≡ without number self.old.entries }
        ensures hits { KeepsMasksOf self.new.entries self.old.order self.new.order }
        ensures room { self.new.room ≡ self.old.room }
        ensures limit { self.new.limit ≡ self.old.limit }
    {
        let Some(Placed { entry, .. }) = self.entries.swap_remove(&number) else {
            unreachable!()
        };
        remove_under(&mut self.subtables, &entry.mask, &entry.key);
        remove_live(&mut self.live, number);
    }

    /// Makes room for one entry of a mask, in place of the room that there was.
    ///
    /// The only error is out of memory, and then all is as before.
    pub fn reserve(&mut self, mask: &Mask) -> Result<(), AllocError>
        ensures ok { OnOk result (self.new ≡ record self.old { room = Some (bits mask.now) }) }
        ensures err { OnErr result (self.new ≡ self.old) }
    {
        self.live.reserve(1)?;
        self.entries.reserve(1)?;
        self.subtables.reserve(1)?;
        reserve_under(&mut self.subtables, mask)?;
        reserve_fresh(self.alloc, &mut self.fresh, mask)?;
        self.room = Some(*mask);
        Ok(())
    }

    /// Adds an entry of the mask for which there is room, and uses the room up. It takes no memory.
    pub fn install(&mut self, entry: Entry)
        requires room { self.old.room ≡ Some (bits entry.mask) }
        requires new { All (λ e. e.number < entry.number) self.old.entries }
        requires free { All
            (λ e. overlaps (numbers entry.key) (bits entry.mask) e ≡ false) self.old.entries }
        ensures entries { self.new.entries ≡ self.old.entries ++ entry ∷ [] }
        ensures hits { AddsMask (bits entry.mask) self.old.order self.new.order }
        ensures room { self.new.room ≡ None }
        ensures limit { self.new.limit ≡ self.old.limit }
    {
        self.room = None;
        let number = entry.number;
        let place = insert_under(
            &mut self.subtables,
            &mut self.fresh,
            &entry.mask,
            &entry.key,
            number,
        );
        let Ok(_) = self.entries.insert(number, Placed { entry, place }) else {
            unreachable!()
        };
        let Ok(_) = self.live.push(number) else {
            unreachable!()
        };
    }
}

ghost use Rattle.std.specs.Prelude.{◌≡◌, ◌<◌, [], ◌∷◌, ◌++◌, ℕ, List, true, length, slice_get, Some, None, IfSome, IsNone, IfOk, OnOk, OnErr};
ghost use Rattle.indexmap.specs.IndexMap.{values, index_map_len, get_by};
ghost use Rattle.spec_keys.specs.Keys.{same};
ghost use Rattle.spec_tables.specs.Rules.{Rule};
ghost use Rattle.ovs_fields.specs.Packed.{numbers, bits};
ghost use Rattle.staged_lookup.specs.Subtables.{HasNoRule};
ghost use Rattle.tuple_classifier.specs.Order.{IsFallingBut};
ghost use Rattle.tuple_classifier.specs.Parts.{AreSubtablesOf, IsSubtableOfOne, HasMaskAt, LacksMask, IsEmptyAt};
ghost use Rattle.tuple_classifier.specs.Placed.{AreKeyed, IsOrderOf};
ghost use Rattle.tuple_classifier.specs.Subtables.{Holds};
ghost use Rattle.tuple_classifier.specs.Updates.{KeepsRules, AddsRule, TakesRule};
ghost use Rattle.tuple_classifier.specs.declared.subtable.Subtable.{Subtable};

use crate::order::{enter, leave, settle};
use crate::subtable::{ByMask, Subtable};
use indexmap::IndexMap;
use ovs_fields::{Key, Mask};
use rule_tables::Match;
use staged_lookup::Rank;
use std::alloc::{AllocError, Global};

/// The subtables of a table.
#[derive(Drop)]
pub(crate) struct Subtables {
    pub(crate) by_mask: ByMask,
    /// Their places in the map, in the order in which lookups go over them.
    pub(crate) order: Vec<u32>,
    pub ghost keyed: { AreKeyed by_mask.entries },
    pub ghost placed: { IsOrderOf (index_map_len by_mask) order.items },
}

impl Subtables {
    ghost use Rattle.tuple_classifier.specs.Kept.{AreKeptOf, TakesRuleAt, by_place, ranked};

    /// None. It takes no memory.
    pub(crate) fn new(alloc: Global) -> Subtables
        ensures { AreKeptOf result [] }
    {
        Subtables {
            by_mask: IndexMap::new(alloc),
            order: Vec::new(alloc),
        }
    }

    /// How many there are.
    pub(crate) fn len(&self) -> usize
        ensures { result ≡ length (ranked self.now) }
    {
        self.order.len()
    }

    /// The one that a lookup comes to after so many others.
    pub(crate) fn at(&self, index: usize) -> &Subtable
        requires { index < length (ranked self.now) }
        ensures { slice_get (ranked self.now) index ≡ Some result.now }
    {
        &self.by_mask[self.order[index] as usize]
    }

    /// Adds a rule, whose number none of them has. The only error is out of memory, and then they have the same rules.
    pub(crate) fn insert(
        &mut self,
        alloc: Global,
        matching: &Match,
        rank: Rank,
    ) -> Result<(), AllocError>
        requires { (i : ℕ) (s : Subtable) → slice_get (by_place self.old) i ≡ Some s
            → HasNoRule rank.number s.staged }
        ensures ok { OnOk result
            (AddsRule matching.now rank (AreKeptOf self.old) (AreKeptOf self.new)) }
        ensures err { OnErr result (KeepsRules (AreKeptOf self.old) (AreKeptOf self.new)) }
    {
        match place_of_mask(&self.by_mask, &matching.mask) {
            Some(place) => self.insert_at(place, matching, rank),
            None => self.insert_new(alloc, matching, rank),
        }
    }

    /// Adds a rule to the subtable of its mask, which is at a place.
    fn insert_at(&mut self, place: usize, matching: &Match, rank: Rank) -> Result<(), AllocError>
        requires within { place < index_map_len self.old.by_mask }
        requires mask { HasMaskAt place (by_place self.old) (bits matching.now.mask) }
        requires new { (s : Subtable) → slice_get (by_place self.old) place ≡ Some s
            → HasNoRule rank.number s.staged }
        ensures ok { OnOk result
            (AddsRule matching.now rank (AreKeptOf self.old) (AreKeptOf self.new)) }
        ensures err { OnErr result (KeepsRules (AreKeptOf self.old) (AreKeptOf self.new)) }
    {
        let before = self.by_mask[place].indexes.greatest();
        self.by_mask[place].insert(matching, rank)?;
        settle(&self.by_mask, &mut self.order, place, before);
        Ok(())
    }

    /// Adds a rule whose mask none of them has.
    fn insert_new(&mut self, alloc: Global, matching: &Match, rank: Rank) -> Result<(), AllocError>
        requires absent { get_by (λ m. same (bits matching.now.mask) (bits m)) self.old.by_mask ≡ None }
        requires none { LacksMask (by_place self.old) (bits matching.now.mask) }
        ensures ok { OnOk result
            (AddsRule matching.now rank (AreKeptOf self.old) (AreKeptOf self.new)) }
        ensures err { OnErr result (KeepsRules (AreKeptOf self.old) (AreKeptOf self.new)) }
    {
        let Ok(place) = u32::try_from(self.by_mask.len()) else {
            return Err(AllocError);
        };
        self.order.reserve(1)?;
        let subtable = one_rule(alloc, matching, rank)?;
        add_subtable(&mut self.by_mask, &matching.mask, subtable)?;
        enter(&self.by_mask, &mut self.order, place);
        Ok(())
    }

    /// Takes a rule out, and its mask with the last rule. It takes no memory.
    pub(crate) fn take(&mut self, matching: &Match, rank: Rank)
        requires { (i : ℕ) (s : Subtable) → slice_get (by_place self.old) i ≡ Some s
            → same (bits s.staged.mask) (bits matching.now.mask) ≡ true
            → Holds s rank (numbers matching.now.key) }
        ensures { TakesRule matching.now rank (AreKeptOf self.old) (AreKeptOf self.new) }
    {
        if let Some(place) = place_of_mask(&self.by_mask, &matching.mask) {
            self.take_at(place, &matching.key, rank);
        }
    }

    /// Takes a rule of the mask of the subtable at a place out, and the subtable with its last rule.
    fn take_at(&mut self, place: usize, key: &Key, rank: Rank)
        requires within { place < index_map_len self.old.by_mask }
        requires holds { (s : Subtable) → slice_get (by_place self.old) place ≡ Some s
            → Holds s rank (numbers key.now) }
        ensures { TakesRuleAt place rank self.old self.new }
    {
        let before = self.by_mask[place].indexes.greatest();
        self.by_mask[place].take(key, rank);
        if self.by_mask[place].is_empty() {
            self.drop_at(place);
        } else {
            settle(&self.by_mask, &mut self.order, place, before);
        }
    }

    /// Drops the subtable at a place, which has no rules.
    fn drop_at(&mut self, place: usize)
        requires { place < index_map_len self.old.by_mask }
        ensures { (rs : List Rule) → AreSubtablesOf (by_place self.old) rs
            → IsFallingBut place (by_place self.old) self.old.order.items
            → IsEmptyAt place (by_place self.old) rs
            → AreKeptOf self.new rs }
    {
        leave(&mut self.order, place, self.by_mask.len() - 1);
        drop(self.by_mask.swap_remove_index(place));
    }
}

/// A subtable with one rule.
fn one_rule(alloc: Global, matching: &Match, rank: Rank) -> Result<Subtable, AllocError>
    ensures { IfOk result (λ s. IsSubtableOfOne s matching.now rank) }
{
    let mut subtable = Subtable::new(alloc, &matching.mask);
    match subtable.insert(matching, rank) {
        Ok(()) => Ok(subtable),
        Err(error) => {
            drop(subtable);
            Err(error)
        }
    }
}

/// Adds a subtable of a mask that none has. The only error is out of memory, and then they are as they were.
fn add_subtable(by_mask: &mut ByMask, mask: &Mask, subtable: Subtable) -> Result<(), AllocError>
    requires { get_by (λ m. same (bits mask.now) (bits m)) by_mask.old ≡ None }
    ensures ok { OnOk result (by_mask.new.entries ≡ by_mask.old.entries ++ (mask.now, subtable) ∷ []) }
    ensures err { OnErr result (by_mask.new.entries ≡ by_mask.old.entries) }
{
    drop(by_mask.insert(*mask, subtable)?);
    Ok(())
}

/// The place of the subtable of a mask.
fn place_of_mask(by_mask: &ByMask, mask: &Mask) -> Option<usize>
    requires { AreKeyed by_mask.now.entries }
    ensures some { IfSome result
        (λ i. (i < index_map_len by_mask.now) × HasMaskAt i (values by_mask.now) (bits mask.now)) }
    ensures none { IsNone result → LacksMask (values by_mask.now) (bits mask.now) }
    ensures absent { IsNone result → get_by (λ m. same (bits mask.now) (bits m)) by_mask.now ≡ None }
{
    by_mask.get_index_of(mask)
}

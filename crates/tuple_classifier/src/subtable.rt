ghost use Rattle.std.specs.Prelude.{◌≡◌, [], List, IsTrue, OnOk, OnErr};
ghost use Rattle.spec_keys.specs.Keys.{same};
ghost use Rattle.spec_tables.specs.Rules.{Rule};
ghost use Rattle.ovs_fields.specs.Packed.{numbers, bits};
ghost use Rattle.staged_lookup.specs.Numbered.{without};
ghost use Rattle.staged_lookup.specs.Ranks.{rank_of};
ghost use Rattle.staged_lookup.specs.Subtables.{HasNoRule};
ghost use Rattle.table_laws.specs.Members.{Among};
ghost use Rattle.tuple_classifier.specs.Updates.{KeepsRules, AddsRule};

use crate::indexes::Indexes;
use indexmap::IndexMap;
use ovs_fields::{Key, Mask};
use rule_tables::Match;
use staged_lookup::Rank;
use std::alloc::{AllocError, Global};

/// The rules of one mask, and what lookups ask of them besides which a key matches.
#[derive(Drop)]
pub(crate) struct Subtable {
    pub(crate) staged: staged_lookup::Subtable,
    pub(crate) indexes: Indexes,
}

/// The subtable of each mask.
pub(crate) type ByMask = IndexMap<Mask, Subtable>;

impl Subtable {
    ghost use Rattle.tuple_classifier.specs.Subtables.{IsSubtableOf, Holds};

    /// No rules of a mask. It takes no memory.
    pub(crate) fn new(alloc: Global, mask: &Mask) -> Subtable
        ensures mask { bits result.staged.mask ≡ bits mask.now }
        ensures rules { IsSubtableOf result [] }
    {
        Subtable {
            staged: staged_lookup::Subtable::new(alloc, mask),
            indexes: Indexes::new(alloc, mask),
        }
    }

    /// Adds a rule of the mask, whose number none of its rules has. The only error is out of memory, and then it has the
    /// same rules.
    pub(crate) fn insert(&mut self, matching: &Match, rank: Rank) -> Result<(), AllocError>
        requires mask { IsTrue (same (bits matching.now.mask) (bits self.old.staged.mask)) }
        requires new { HasNoRule rank.number self.old.staged }
        ensures mask { self.new.staged.mask ≡ self.old.staged.mask }
        ensures ok { OnOk result
            (AddsRule matching.now rank (IsSubtableOf self.old) (IsSubtableOf self.new)) }
        ensures err { OnErr result (KeepsRules (IsSubtableOf self.old) (IsSubtableOf self.new)) }
    {
        self.indexes.reserve()?;
        self.staged.insert(rank.number, rank.priority, matching)?;
        self.indexes.add(rank.priority);
        Ok(())
    }

    /// Takes a rule of the mask out, which has this key. It takes no memory.
    pub(crate) fn take(&mut self, key: &Key, rank: Rank)
        requires { Holds self.old rank (numbers key.now) }
        ensures mask { self.new.staged.mask ≡ self.old.staged.mask }
        ensures taken { (rs : List Rule) (r : Rule) → IsSubtableOf self.old rs
            → Among r rs → rank_of r ≡ rank → IsSubtableOf self.new (without r.number rs) }
    {
        self.staged.remove(rank.number, key);
        self.indexes.take(rank.priority);
    }

    /// Whether it has no rules.
    pub(crate) fn is_empty(&self) -> bool
        ensures { IsTrue result → (rs : List Rule) → IsSubtableOf self.now rs → rs ≡ [] }
    {
        self.staged.is_empty()
    }
}

ghost use Rattle.std.specs.Prelude.{◌≡◌, ◌+◌, ◌<◌, ◌^◌, [], ℕ, List, length, slice_get, Some, OnOk, OnErr};
ghost use Rattle.std.specs.Option.{option_map};
ghost use Rattle.spec_tables.specs.Rules.{Rule, winner};
ghost use Rattle.spec_xlate.specs.Lookup.{added, consults};
ghost use Rattle.ovs_fields.specs.Packed.{numbers, bits};
ghost use Rattle.rule_tables.specs.Views.{match_view};
ghost use Rattle.address_prefixes.specs.Addresses.{AreOf};
ghost use Rattle.staged_lookup.specs.Numbered.{AreDistinct};
ghost use Rattle.staged_lookup.specs.Subtables.{HasNoRule};
ghost use Rattle.tuple_classifier.specs.Updates.{KeepsRules, AddsRule, TakesRule};
ghost use Rattle.tuple_classifier.specs.declared.subtable.Subtable.{Subtable};

use crate::lookup::look;
use crate::subtables::Subtables;
use address_prefixes::AddressPrefixes;
use ovs_fields::{Key, Mask};
use rule_tables::Match;
use staged_lookup::{MaskUnion, PacketKey, Rank};
use std::alloc::{AllocError, Global};

/// The rules of a table.
#[derive(Drop)]
pub(crate) struct Table {
    /// The prefixes of the addresses that they state.
    pub(crate) prefixes: AddressPrefixes,
    /// Those of each mask.
    pub(crate) subtables: Subtables,
}

impl Table {
    ghost use Rattle.tuple_classifier.specs.Kept.{by_place};
    ghost use Rattle.tuple_classifier.specs.Tables.{IsTableOf, HasRuleOf};

    /// No rules. It takes no memory.
    pub(crate) fn new(alloc: Global) -> Table
        ensures { IsTableOf result [] }
    {
        Table {
            prefixes: AddressPrefixes::new(alloc),
            subtables: Subtables::new(alloc),
        }
    }

    /// Adds a rule, whose number none of the rules has, and which are fewer than 2^32 - 1. The only error is out of memory,
    /// and then it has the same rules.
    pub(crate) fn insert(
        &mut self,
        alloc: Global,
        matching: &Match,
        rank: Rank,
    ) -> Result<(), AllocError>
        requires new { (i : ℕ) (s : Subtable) → slice_get (by_place self.old.subtables) i ≡ Some s
            → HasNoRule rank.number s.staged }
        requires few { (rs : List Rule) × (AreOf self.old.prefixes rs) × (length rs + 1 < 2 ^ 32) }
        ensures ok { OnOk result
            (AddsRule matching.now rank (IsTableOf self.old) (IsTableOf self.new)) }
        ensures err { OnErr result (KeepsRules (IsTableOf self.old) (IsTableOf self.new)) }
    {
        self.prefixes.insert(matching)?;
        match self.subtables.insert(alloc, matching, rank) {
            Ok(()) => Ok(()),
            Err(error) => {
                self.prefixes.remove(matching);
                Err(error)
            }
        }
    }

    /// Takes a rule out. It takes no memory.
    pub(crate) fn take(&mut self, matching: &Match, rank: Rank)
        requires { HasRuleOf self.old (match_view matching.now) rank }
        ensures { TakesRule matching.now rank (IsTableOf self.old) (IsTableOf self.new) }
    {
        self.subtables.take(matching, rank);
        self.prefixes.remove(matching);
    }

    /// The number of the winner for a key. The bits that the lookup consults are added.
    pub(crate) fn look(&self, key: &Key, consulted: &mut Mask) -> Option<u32>
        requires { (rs : List Rule) × (IsTableOf self.now rs) }
        ensures winner { (rs : List Rule) → IsTableOf self.now rs → AreDistinct rs
            → result ≡ option_map (λ r. r.number) (winner rs (numbers key.now)) }
        ensures consulted { (rs : List Rule) → IsTableOf self.now rs → AreDistinct rs
            → bits consulted.new ≡ added (bits consulted.old) (consults rs (numbers key.now)) }
    {
        let mut union = MaskUnion::of(consulted);
        let winner = look(
            &self.subtables,
            &self.prefixes,
            &PacketKey::new(key),
            &mut union,
        );
        *consulted = union.mask();
        winner
    }
}

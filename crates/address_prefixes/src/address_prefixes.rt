ghost use Rattle.std.specs.Prelude.{◌≡◌, ◌+◌, ◌<◌, ◌^◌, ℕ, List, [], length, true, OnOk, OnErr};
ghost use Rattle.spec_tables.specs.Rules.{Rule};
ghost use Rattle.spec_xlate.specs.Lookup.{prefix_tests, tracked_fields};
ghost use Rattle.table_laws.specs.Members.{Among};
ghost use Rattle.ovs_fields.specs.Packed.{numbers, bits};
ghost use Rattle.rule_tables.specs.Views.{match_view};
ghost use Rattle.address_prefixes.specs.RuleLists.{HasOneMore};
ghost use Rattle.address_prefixes.specs.Tests.{Consults, EndsUnmatched};

use crate::pair::{
    PairLookups, PairPrefixes, PairTries, insert_pair, no_pair, remove_pair, test_pair,
};
use ovs_fields::{FieldId, Key, Mask};
use rule_tables::Match;
use std::alloc::{AllocError, Global};

/// The prefixes of the addresses that a mask has.
#[derive(Clone, Copy)]
pub struct MaskPrefixes {
    pub(crate) ipv4: PairPrefixes,
    pub(crate) ipv6: PairPrefixes,
}

impl MaskPrefixes {
    ghost use Rattle.address_prefixes.specs.Addresses.{AreOfMask};

    pub fn new(mask: &Mask) -> MaskPrefixes
        ensures { AreOfMask result (bits mask.now) }
    {
        MaskPrefixes {
            ipv4: PairPrefixes::new(FieldId::NwSrc, FieldId::NwDst, mask),
            ipv6: PairPrefixes::new(FieldId::Ipv6Src, FieldId::Ipv6Dst, mask),
        }
    }
}

/// What is known so far of the addresses of a key, in the course of one lookup in a table.
#[derive(Clone, Copy)]
pub struct AddressLookups {
    pub(crate) ipv4: PairLookups,
    pub(crate) ipv6: PairLookups,
}

impl AddressLookups {
    ghost use Rattle.address_prefixes.specs.Addresses.{AreKnown};

    /// Nothing is known yet.
    pub fn none() -> AddressLookups
        ensures { (key : List ℕ) (rs : List Rule) → AreKnown result key rs }
    {
        AddressLookups {
            ipv4: PairLookups::none(),
            ipv6: PairLookups::none(),
        }
    }
}

/// The prefixes of the addresses that the rules of a table state.
#[derive(Drop)]
pub struct AddressPrefixes {
    pub(crate) ipv4: PairTries,
    pub(crate) ipv6: PairTries,
}

impl AddressPrefixes {
    ghost use Rattle.address_prefixes.specs.Addresses.{AreOf, StayKnown, ForMasks};

    /// Those of no rules. It takes no memory.
    pub fn new(alloc: Global) -> AddressPrefixes
        ensures { AreOf result [] }
    {
        AddressPrefixes {
            ipv4: no_pair(alloc, FieldId::NwSrc, FieldId::NwDst),
            ipv6: no_pair(alloc, FieldId::Ipv6Src, FieldId::Ipv6Dst),
        }
    }

    /// Adds those of a rule with this match, where the rules are fewer than 2^32 - 1. The only error is out of memory, and
    /// then they are those of the same rules.
    pub fn insert(&mut self, matching: &Match) -> Result<(), AllocError>
        requires { (rs : List Rule) × (AreOf self.old rs) × (length rs + 1 < 2 ^ 32) }
        ensures ok { OnOk result
            ((rs all : List Rule) (r : Rule) → AreOf self.old rs
            → r.matching ≡ match_view matching.now → HasOneMore r rs all → AreOf self.new all) }
        ensures err { OnErr result ((rs : List Rule) → AreOf self.old rs → AreOf self.new rs) }
    {
        let prefixes = MaskPrefixes::new(&matching.mask);
        insert_pair(&mut self.ipv4, &prefixes.ipv4, &matching.key)?;
        match insert_pair(&mut self.ipv6, &prefixes.ipv6, &matching.key) {
            Ok(()) => Ok(()),
            Err(error) => {
                remove_pair(&mut self.ipv4, &prefixes.ipv4, &matching.key);
                Err(error)
            }
        }
    }

    /// Takes those of a rule with this match out, which is one of the rules. It takes no memory.
    pub fn remove(&mut self, matching: &Match)
        requires { (rs : List Rule) × (r : Rule) × (AreOf self.old rs) × (Among r rs)
            × (r.matching ≡ match_view matching.now) }
        ensures { (rs left : List Rule) (r : Rule) → AreOf self.old rs
            → r.matching ≡ match_view matching.now → HasOneMore r left rs → AreOf self.new left }
    {
        let prefixes = MaskPrefixes::new(&matching.mask);
        remove_pair(&mut self.ipv4, &prefixes.ipv4, &matching.key);
        remove_pair(&mut self.ipv6, &prefixes.ipv6, &matching.key);
    }

    /// Consults the bits of the addresses that decide whether a mask goes on, and answers whether it does. Where it doesn't,
    /// the key matches none of its rules. What was looked up of the key is kept for the masks after this one.
    pub fn test(
        &self,
        prefixes: &MaskPrefixes,
        key: &Key,
        known: &mut AddressLookups,
        consulted: &mut Mask,
    ) -> bool
        requires { (rs : List Rule) × (AreOf self.now rs) }
        ensures known { StayKnown self.now known.old known.new key.now }
        ensures consulted { ForMasks self.now known.old prefixes.now key.now
            (λ rs mask. Consults true consulted.old
            (prefix_tests rs (numbers key.now) mask tracked_fields) result consulted.new) }
        ensures unmatched { ForMasks self.now known.old prefixes.now key.now
            (λ rs mask. EndsUnmatched result (numbers key.now) rs mask) }
    {
        let ipv4 = test_pair(
            FieldId::NwSrc,
            FieldId::NwDst,
            true,
            &self.ipv4,
            &prefixes.ipv4,
            key,
            &mut known.ipv4,
            consulted,
        );
        test_pair(
            FieldId::Ipv6Src,
            FieldId::Ipv6Dst,
            ipv4,
            &self.ipv6,
            &prefixes.ipv6,
            key,
            &mut known.ipv6,
            consulted,
        )
    }
}

//! The source and the destination address of one version of IP.

ghost use Rattle.std.specs.Prelude.{◌≡◌, ℕ, List, [], ◌∷◌, OnOk, OnErr};
ghost use Rattle.spec_keys.specs.declared.field_id.FieldId.{FieldId};
ghost use Rattle.spec_tables.specs.Rules.{Rule};
ghost use Rattle.spec_xlate.specs.Lookup.{prefix_tests};
ghost use Rattle.ovs_fields.specs.Packed.{numbers, bits};
ghost use Rattle.address_prefixes.specs.Pairs.{src_of, dst_of, HaveWidths, AreTriesOf, AreFew, HaveOnceMore, AreAlike, AreThere, ArePrefixesOf, AreKnown, StayKnown, ForMasks};
ghost use Rattle.address_prefixes.specs.Tests.{Consults, EndsUnmatched};

use crate::field_prefix::FieldPrefix;
use crate::field_trie::{insert_prefix, no_prefixes, remove_prefix};
use crate::prefix_test::prefix_test;
use crate::tracker::{Found, PrefixTrie};
use ovs_fields::{FieldId, Key, Mask};
use std::alloc::{AllocError, Global};

/// The prefixes of two addresses that a mask has.
#[derive(Clone, Copy)]
pub(crate) struct PairPrefixes {
    pub(crate) src: FieldPrefix,
    pub(crate) dst: FieldPrefix,
}

impl PairPrefixes {
    pub(crate) fn new(src: FieldId, dst: FieldId, mask: &Mask) -> PairPrefixes
        ensures { ArePrefixesOf result src dst (bits mask.now) }
    {
        PairPrefixes {
            src: FieldPrefix::new(src, mask),
            dst: FieldPrefix::new(dst, mask),
        }
    }
}

/// What is known so far of two addresses of a key, in the course of one lookup.
#[derive(Clone, Copy)]
pub(crate) struct PairLookups {
    pub(crate) src: Option<Found>,
    pub(crate) dst: Option<Found>,
}

impl PairLookups {
    pub(crate) fn none() -> PairLookups
        ensures { (src dst : FieldId) (key : List ℕ) (rs : List Rule) → AreKnown result src dst key rs }
    {
        PairLookups {
            src: None,
            dst: None,
        }
    }
}

/// The prefixes of two addresses that rules state: those of the source, and those of the destination.
pub(crate) type PairTries = [PrefixTrie; 2];

pub(crate) fn no_pair(alloc: Global, src: FieldId, dst: FieldId) -> PairTries
    ensures { AreTriesOf result src dst [] }
{
    [no_prefixes(alloc, src), no_prefixes(alloc, dst)]
}

/// Adds the prefixes that a rule states, which has this key under a mask with these. The only error is out of memory, and
/// then the prefixes stay.
pub(crate) fn insert_pair(
    pair: &mut PairTries,
    prefixes: &PairPrefixes,
    key: &Key,
) -> Result<(), AllocError>
    requires widths { HaveWidths pair.old prefixes.now.src.field prefixes.now.dst.field }
    requires few { AreFew pair.old }
    ensures ok { OnOk result
        (HaveOnceMore prefixes.now (numbers key.now) pair.old pair.new) }
    ensures err { OnErr result (AreAlike pair.old pair.new) }
{
    insert_prefix(&mut pair[0], &prefixes.src, key)?;
    match insert_prefix(&mut pair[1], &prefixes.dst, key) {
        Ok(()) => Ok(()),
        Err(error) => {
            remove_prefix(&mut pair[0], &prefixes.src, key);
            Err(error)
        }
    }
}

/// Takes the prefixes out that such a rule states. It takes no memory.
pub(crate) fn remove_pair(pair: &mut PairTries, prefixes: &PairPrefixes, key: &Key)
    requires widths { HaveWidths pair.old prefixes.now.src.field prefixes.now.dst.field }
    requires there { AreThere prefixes.now (numbers key.now) pair.old }
    ensures { HaveOnceMore prefixes.now (numbers key.now) pair.new pair.old }
{
    remove_prefix(&mut pair[0], &prefixes.src, key);
    remove_prefix(&mut pair[1], &prefixes.dst, key);
}

fn source(pair: &PairTries) -> &PrefixTrie
    ensures { result.now ≡ src_of pair.now }
{
    &pair[0]
}

fn destination(pair: &PairTries) -> &PrefixTrie
    ensures { result.now ≡ dst_of pair.now }
{
    &pair[1]
}

/// Consults the bits of two addresses, a source and a destination, that decide whether a mask goes on, where it hasn't
/// ended, and answers whether it does. Where it doesn't, the key matches none of its rules. Like `prefix_test` it is a part
/// of its caller, which names the fields.
#[inline(always)]
pub(crate) fn test_pair(
    src: FieldId,
    dst: FieldId,
    alive: bool,
    pair: &PairTries,
    prefixes: &PairPrefixes,
    key: &Key,
    known: &mut PairLookups,
    consulted: &mut Mask,
) -> bool
    requires { HaveWidths pair.now src dst }
    ensures known { StayKnown pair.now known.old known.new src dst key.now }
    ensures consulted { ForMasks pair.now known.old prefixes.now src dst key.now
        (λ rs mask. Consults alive consulted.old
        (prefix_tests rs (numbers key.now) mask (src ∷ dst ∷ [])) result consulted.new) }
    ensures unmatched { ForMasks pair.now known.old prefixes.now src dst key.now
        (λ rs mask. EndsUnmatched alive (numbers key.now) rs mask
        → EndsUnmatched result (numbers key.now) rs mask) }
{
    let first = prefix_test(
        src,
        alive,
        source(pair),
        &prefixes.src,
        key,
        &mut known.src,
        consulted,
    );
    prefix_test(
        dst,
        first,
        destination(pair),
        &prefixes.dst,
        key,
        &mut known.dst,
        consulted,
    )
}

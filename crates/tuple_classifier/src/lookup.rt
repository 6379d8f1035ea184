//! What a lookup in one table answers, and the bits that it consults.

ghost use Rattle.std.specs.Prelude.{◌≡◌, List, Some, None, IfSome};
ghost use Rattle.std.specs.Option.{option_map};
ghost use Rattle.spec_keys.specs.Keys.{joined};
ghost use Rattle.spec_tables.specs.Rules.{Rule, winner};
ghost use Rattle.spec_xlate.specs.Lookup as xlate;
ghost use Rattle.spec_xlate.specs.Lookup.{consults};
ghost use Rattle.ovs_fields.specs.Packed.{bits};
ghost use Rattle.masked_map.specs.Unions.{union_of};
ghost use Rattle.address_prefixes.specs.Addresses.{AreOf, AreKnown};
ghost use Rattle.staged_lookup.specs.Subtables.{tested_part, found_rank};
ghost use Rattle.staged_lookup.specs.Subtables as by_stages;
ghost use Rattle.staged_lookup.specs.declared.probe.Probe.TheVariants as probes;
ghost use Rattle.tuple_classifier.specs.Kept.{ranked};
ghost use Rattle.tuple_classifier.specs.Lookups.{key_of, own_rules, Consults, late_tests, ForTable, ForSubtable, IfPassed};
ghost use Rattle.tuple_classifier.specs.Passes.{GoesOn};
ghost use Rattle.tuple_classifier.specs.Ranks.{rank_of, floor_of, best_of_pair};

use crate::subtable::Subtable;
use crate::subtables::Subtables;
use address_prefixes::{AddressLookups, AddressPrefixes};
use staged_lookup::{MaskUnion, PacketKey, Probe, Rank, better};

/// The stage before that of the network: prefixes are tested after it.
const ETHERNET: u8 = 1;

/// The number of the winner for a key. The bits that the lookup consults are added.
pub(crate) fn look(
    subtables: &Subtables,
    prefixes: &AddressPrefixes,
    key: &PacketKey<'_>,
    consulted: &mut MaskUnion,
) -> Option<u32>
    requires { (rs : List Rule) × (AreOf prefixes.now rs) }
    ensures winner { ForTable (ranked subtables.now) prefixes.now
        (λ rs. result ≡ option_map (λ r. r.number) (winner rs (key_of key.now))) }
    ensures consulted { ForTable (ranked subtables.now) prefixes.now
        (λ rs. Consults consulted.old consulted.new (consults rs (key_of key.now))) }
{
    let mut known = AddressLookups::none();
    let mut best = None;
    'subtables: for i in 0..subtables.len() {
        let subtable = subtables.at(i);
        if !subtable.indexes.reaches(priority_to_beat(best)) {
            return number_of(best);
        }
        let winner = probe(subtable, prefixes, key, &mut known, consulted);
        best = best_of_two(winner, best);
    }
    number_of(best)
}

/// The priority below which no rule can win.
fn priority_to_beat(best: Option<Rank>) -> u16
    ensures { result ≡ floor_of best }
{
    match best {
        None => 0,
        Some(rank) => rank.priority,
    }
}

/// The better of the bests of two lists.
fn best_of_two(first: Option<Rank>, best: Option<Rank>) -> Option<Rank>
    ensures { result ≡ best_of_pair first best }
{
    match first {
        None => best,
        Some(rank) => better(rank, best),
    }
}

fn number_of(best: Option<Rank>) -> Option<u32>
    ensures { result ≡ option_map (λ r. r.number) best }
{
    best.map(|rank| rank.number)
}

/// The best rank of the rules of a mask that a key matches. The bits that the mask consults are added.
fn probe(
    subtable: &Subtable,
    prefixes: &AddressPrefixes,
    key: &PacketKey<'_>,
    known: &mut AddressLookups,
    consulted: &mut MaskUnion,
) -> Option<Rank>
    requires { (rs : List Rule) × (AreOf prefixes.now rs) }
    ensures known { (rs : List Rule) → AreOf prefixes.now rs
        → AreKnown known.old (key_of key.now) rs → AreKnown known.new (key_of key.now) rs }
    ensures best { ForSubtable subtable.now prefixes.now known.old key.now
        (λ rs. result ≡ option_map rank_of (winner (own_rules subtable.now.staged rs) (key_of key.now))) }
    ensures consulted { ForSubtable subtable.now prefixes.now known.old key.now
        (λ rs. Consults consulted.old consulted.new
        (xlate.probe rs (key_of key.now) (bits subtable.now.staged.mask))) }
{
    let staged = &subtable.staged;
    let early = staged.probe_early(key);
    if let Some(stage) = ended_at(early) {
        staged.add_part_to(stage, consulted);
        return None;
    }
    staged.add_part_to(ETHERNET, consulted);
    if !prefixes.test(
        &subtable.indexes.prefixes,
        key.key,
        known,
        &mut consulted.rest,
    ) {
        return None;
    }
    finish(staged, early, key, consulted)
}

/// The stage at which a probe ended, if it has.
fn ended_at(early: Option<Probe>) -> Option<u8>
    ensures ended { IfSome result (λ stage. early ≡ Some (probes.Ended stage)) }
    ensures goes_on { result ≡ None → GoesOn early }
{
    match early {
        Some(Probe::Ended { stage }) => Some(stage),
        Some(Probe::Best { .. }) | None => None,
    }
}

/// The best rank of the rules of a mask that a key matches, which the stages before that of the network don't rule out.
/// The bits that the others consult are added.
fn finish(
    staged: &staged_lookup::Subtable,
    early: Option<Probe>,
    key: &PacketKey<'_>,
    consulted: &mut MaskUnion,
) -> Option<Rank>
    ensures best { (own : List Rule) → IfPassed early staged.now key.now own
        (result ≡ option_map rank_of (winner own (key_of key.now))) }
    ensures consulted { (rs : List Rule) → IfPassed early staged.now key.now (own_rules staged.now rs)
        (Consults consulted.old consulted.new
        (late_tests rs (key_of key.now) (bits staged.now.mask))) }
{
    match early {
        Some(probe) => told(staged, probe, consulted),
        None => told(staged, staged.probe_late(key), consulted),
    }
}

/// The rank that a probe found, if it found one. The bits of the mask that it tested are added.
fn told(staged: &staged_lookup::Subtable, probe: Probe, consulted: &mut MaskUnion) -> Option<Rank>
    ensures found { result ≡ found_rank probe }
    ensures consulted { (own : List Rule) → by_stages.IsSubtableOf staged.now own
        → union_of consulted.new ≡ joined (union_of consulted.old) (tested_part probe (bits staged.now.mask)) }
{
    match probe {
        Probe::Ended { stage } => {
            staged.add_part_to(stage, consulted);
            None
        }
        Probe::Best { rule, priority } => {
            staged.add_mask_to(consulted);
            Some(Rank {
                priority,
                number: rule,
            })
        }
    }
}

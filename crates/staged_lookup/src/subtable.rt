ghost use Rattle.std.specs.Prelude.{◌≡◌, ◌==◌, [], ℕ, List, IsTrue, IsNone, OnOk, OnErr, IfSome, None};
ghost use Rattle.staged_lookup.specs.declared.probe.Probe.TheVariants as probes;
ghost use Rattle.std.specs.List.{find};
ghost use Rattle.std.specs.Option.{option_map};
ghost use Rattle.spec_keys.specs.Stages.{network_stage};
ghost use Rattle.spec_keys.specs.Keys.{joined, same};
ghost use Rattle.spec_tables.specs.Rules.{Rule, winner};
ghost use Rattle.ovs_fields.specs.Packed.{numbers, bits};
ghost use Rattle.masked_map.specs.Unions.{union_of};
ghost use Rattle.staged_lookup.specs.Numbered.{without};
ghost use Rattle.staged_lookup.specs.Ranks.{rank_of};

use crate::buckets::{Buckets, add_rank, take_rank};
use crate::probe::{ETHERNET, METADATA, NETWORK, PORTS, Probe};
use crate::rank::{Rank, best_of};
use crate::stage::{Stage, Step};
use masked_map::{MaskUnion, MaskedMap, PacketKey};
use ovs_fields::{Key, Mask, ethernet_part, metadata_part, network_part};
use rule_tables::Match;
use std::alloc::{AllocError, Global};

/// The rules of one mask.
#[derive(Drop)]
pub struct Subtable {
    pub(crate) alloc: Global,
    pub(crate) mask: Mask,
    /// The ranks of the rules with each key.
    pub(crate) buckets: Buckets,
    pub(crate) metadata: Stage,
    pub(crate) ethernet: Stage,
    pub(crate) network: Stage,
    /// How many rules there are.
    pub(crate) rules: usize,
}

impl Subtable {
    ghost use Rattle.staged_lookup.specs.Subtables.{IsSubtableOf, AddsRule, KeepsRules, HasRule, HasNoRule, IsProbe, IsEarly, PassesTo, part_through, has_priority};

    /// No rules of a mask. It takes no memory.
    pub fn new(alloc: Global, mask: &Mask) -> Subtable
        ensures mask { bits result.mask ≡ bits mask.now }
        ensures rules { IsSubtableOf result [] }
    {
        let metadata = metadata_part(mask);
        let ethernet = ethernet_part(mask);
        let network = network_part(mask);
        Subtable {
            alloc,
            mask: *mask,
            buckets: MaskedMap::new(alloc, mask),
            metadata: Stage::new(alloc, &Mask::none(), &metadata, mask),
            ethernet: Stage::new(alloc, &metadata, &ethernet, mask),
            network: Stage::new(alloc, &ethernet, &network, mask),
            rules: 0,
        }
    }

    /// Adds a rule of the mask, whose number none of its rules has. The only error is out of memory, and then it has the
    /// same rules.
    pub fn insert(&mut self, number: u32, priority: u16, matching: &Match) -> Result<(), AllocError>
        requires mask { IsTrue (same (bits matching.now.mask) (bits self.old.mask)) }
        requires new { HasNoRule number self.old }
        ensures mask { self.new.mask ≡ self.old.mask }
        ensures ok { OnOk result (AddsRule number priority matching.now self.old self.new) }
        ensures err { OnErr result (KeepsRules self.old self.new) }
    {
        self.metadata.reserve()?;
        self.ethernet.reserve()?;
        self.network.reserve()?;
        add_rank(
            self.alloc,
            &mut self.buckets,
            &matching.key,
            Rank { priority, number },
        )?;
        self.metadata.add(&matching.key);
        self.ethernet.add(&matching.key);
        self.network.add(&matching.key);
        self.rules += 1;
        Ok(())
    }

    /// Takes the rule of a number out, which is there and has this key. It takes no memory.
    pub fn remove(&mut self, number: u32, key: &Key)
        requires { HasRule number (numbers key.now) self.old }
        ensures mask { self.new.mask ≡ self.old.mask }
        ensures removed { (rs : List Rule)
            → IsSubtableOf self.old rs → IsSubtableOf self.new (without number rs) }
    {
        take_rank(&mut self.buckets, key, number);
        self.metadata.take(key);
        self.ethernet.take(key);
        self.network.take(key);
        self.rules -= 1;
    }

    /// The first stage on which no rule agrees with a key, or the rule that wins of those that it matches. It takes no
    /// memory.
    pub fn probe(&self, key: &Key) -> Probe
        ensures { (rs : List Rule)
            → IsSubtableOf self.now rs
            → IsProbe result (bits self.now.mask) (numbers key.now) rs }
    {
        let key = PacketKey::new(key);
        match self.probe_early(&key) {
            Some(probe) => probe,
            None => self.probe_late(&key),
        }
    }

    /// What `probe` answers of a key, where the stages of the metadata and of Ethernet decide it. A lookup that has
    /// something to test between them and the others asks this first, and then `probe_late`. It takes no memory.
    pub fn probe_early(&self, key: &PacketKey<'_>) -> Option<Probe>
        ensures some { IfSome result
            (λ probe. (rs : List Rule)
            → IsSubtableOf self.now rs
            → IsProbe probe (bits self.now.mask) (numbers key.now.key.now) rs) }
        ensures early { IfSome result IsEarly }
        ensures none { IsNone result
            → (rs : List Rule) → IsSubtableOf self.now rs
            → PassesTo network_stage (bits self.now.mask) (numbers key.now.key.now) rs }
    {
        if self.rules == 0 {
            return Some(Probe::Ended { stage: METADATA });
        }
        match self.metadata.step(key) {
            Step::Passes => {}
            Step::Ends => return Some(Probe::Ended { stage: METADATA }),
            Step::Decides => return Some(decided(self.best(key), METADATA)),
        }
        match self.ethernet.step(key) {
            Step::Passes => None,
            Step::Ends => Some(Probe::Ended { stage: ETHERNET }),
            Step::Decides => Some(decided(self.best(key), ETHERNET)),
        }
    }

    /// What `probe` answers of a key that these stages don't decide. It takes no memory.
    pub fn probe_late(&self, key: &PacketKey<'_>) -> Probe
        ensures { (rs : List Rule)
            → IsSubtableOf self.now rs
            → PassesTo network_stage (bits self.now.mask) (numbers key.now.key.now) rs
            → IsProbe result (bits self.now.mask) (numbers key.now.key.now) rs }
    {
        match self.network.step(key) {
            Step::Passes => decided(self.best(key), PORTS),
            Step::Ends => Probe::Ended { stage: NETWORK },
            Step::Decides => decided(self.best(key), NETWORK),
        }
    }

    /// Adds to the bits of other masks those of this one in the fields of a stage and those before it: from 0, the
    /// metadata, to 2, IP and ARP. From 3 on these are all of its bits.
    pub fn add_part_to(&self, stage: u8, union: &mut MaskUnion)
        ensures { (rs : List Rule)
            → IsSubtableOf self.now rs
            → union_of union.new
            ≡ joined (union_of union.old) (part_through stage (bits self.now.mask)) }
    {
        match stage {
            METADATA => self.metadata.add_part_to(union),
            ETHERNET => self.ethernet.add_part_to(union),
            NETWORK => self.network.add_part_to(union),
            _ => self.add_mask_to(union),
        }
    }

    /// Adds the bits of the mask to those of others.
    pub fn add_mask_to(&self, union: &mut MaskUnion)
        ensures { (rs : List Rule)
            → IsSubtableOf self.now rs
            → union_of union.new ≡ joined (union_of union.old) (bits self.now.mask) }
    {
        self.buckets.add_mask_to(union);
    }

    /// The number of the rule with this key and priority.
    pub fn find(&self, key: &Key, priority: u16) -> Option<u32>
        ensures { (rs : List Rule)
            → IsSubtableOf self.now rs
            → result ≡ option_map (λ r. r.number) (find (has_priority (numbers key.now) priority) rs) }
    {
        match self.buckets.get_exact(key) {
            Some(bucket) => number_of_priority(bucket.ranks(), priority),
            None => None,
        }
    }

    /// Whether it has no rules.
    pub fn is_empty(&self) -> bool
        ensures { IsTrue result → (rs : List Rule) → IsSubtableOf self.now rs → rs ≡ [] }
    {
        self.rules == 0
    }

    /// The best rank of the rules that a key matches.
    fn best(&self, key: &PacketKey<'_>) -> Option<Rank>
        ensures { (rs : List Rule)
            → IsSubtableOf self.now rs
            → result ≡ option_map rank_of (winner rs (numbers key.now.key.now)) }
    {
        match self.buckets.get(key) {
            Some(bucket) => best_of(bucket.ranks()),
            None => None,
        }
    }
}

/// The number of the first rank of a priority.
fn number_of_priority(ranks: &[Rank], priority: u16) -> Option<u32>
    ensures { result ≡ option_map (λ r. r.number) (find (λ r. r.priority == priority) ranks.now) }
{
    ranks
        .iter()
        .find(|rank| rank.priority == priority)
        .map(|rank| rank.number)
}

/// What a probe answers that tested all rules at this stage, by the best of those that match.
fn decided(best: Option<Rank>, stage: u8) -> Probe
    ensures none { best ≡ None → result ≡ probes.Ended stage }
    ensures some { IfSome best (λ rank. result ≡ probes.Best rank.number rank.priority) }
{
    match best {
        Some(rank) => Probe::Best {
            rule: rank.number,
            priority: rank.priority,
        },
        None => Probe::Ended { stage },
    }
}

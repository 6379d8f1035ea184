ghost use Rattle.std.specs.Prelude.{◌≡◌, true, false, ◌<◌, [], ℕ, List, OnOk};
ghost use Rattle.spec_keys.specs.Keys.{joined};
ghost use Rattle.spec_tables.specs.Rules.{Rule};
ghost use Rattle.ovs_fields.specs.Packed.{numbers, bits};
ghost use Rattle.masked_map.specs.Unions.{union_of};
ghost use Rattle.staged_lookup.specs.declared.stage.StageKind.TheVariants as kinds;
ghost use Rattle.staged_lookup.specs.declared.stage.Step.TheVariants as steps;

use crate::counts::{KeyCounts, add_count, count_of_packet, take_count};
use masked_map::{MaskUnion, MaskedMap, PacketKey};
use ovs_fields::{Key, Mask};
use std::alloc::{AllocError, Global};

/// What a stage of a lookup does for a mask, by the part of the mask that it reaches.
#[derive(Clone, Copy)]
pub(crate) enum StageKind {
    /// The part is that of the stage before, whose answer stands.
    LikeTheOneBefore,
    /// The part is the whole mask, after which nothing is left to consult.
    WholeMask,
    /// The rules are tested under the part.
    Tested,
}

/// What a stage tells of a key.
#[derive(Clone, Copy)]
pub(crate) enum Step {
    /// Some rule agrees with it on the part.
    Passes,
    /// None does.
    Ends,
    /// The part is the whole mask: what rules it matches decides.
    Decides,
}

/// What a stage does whose part is this one, where the stage before reaches another.
fn kind_of(before: &Mask, part: &Mask, mask: &Mask) -> StageKind
    ensures like { result ≡ kinds.LikeTheOneBefore → bits part.now ≡ bits before.now }
    ensures whole { result ≡ kinds.WholeMask → bits part.now ≡ bits mask.now }
{
    if *part == *before {
        StageKind::LikeTheOneBefore
    } else if *part == *mask {
        StageKind::WholeMask
    } else {
        StageKind::Tested
    }
}

/// A stage of a lookup, by the part of a mask that it reaches.
#[derive(Drop)]
pub(crate) struct Stage {
    pub(crate) kind: StageKind,
    /// How many of the mask's rules have each key under the part, where the stage tests them.
    pub(crate) counts: KeyCounts,
}

impl Stage {
    ghost use Rattle.staged_lookup.specs.Stages.{IsStage, IsStep, CountsTheSame, CountsOneMore, CountsOneLess, CountsFewer, HasRoom, IsCounted, some_agrees};

    /// A stage without rules, that reaches a part of a mask after another part.
    pub(crate) fn new(alloc: Global, before: &Mask, part: &Mask, mask: &Mask) -> Stage
        ensures { IsStage result (bits before.now) (bits part.now) (bits mask.now) [] }
    {
        Stage {
            kind: kind_of(before, part, mask),
            counts: MaskedMap::new(alloc, part),
        }
    }

    /// Adds the bits of the part to those of others.
    pub(crate) fn add_part_to(&self, union: &mut MaskUnion)
        ensures { (before part mask : List ℕ) (rs : List Rule)
            → IsStage self.now before part mask rs
            → union_of union.new ≡ joined (union_of union.old) part }
    {
        self.counts.add_mask_to(union);
    }

    /// Makes room for one more rule.
    pub(crate) fn reserve(&mut self) -> Result<(), AllocError>
        ensures same { CountsTheSame self.old self.new }
        ensures few { CountsFewer self.old → CountsFewer self.new }
        ensures room { OnOk result (HasRoom self.new) }
    {
        match self.kind {
            StageKind::LikeTheOneBefore | StageKind::WholeMask => Ok(()),
            StageKind::Tested => self.counts.reserve(),
        }
    }

    /// Counts a rule with this key, for which there is room.
    pub(crate) fn add(&mut self, key: &Key)
        requires room { HasRoom self.old }
        requires few { CountsFewer self.old }
        ensures { CountsOneMore (numbers key.now) self.old self.new }
    {
        match self.kind {
            StageKind::LikeTheOneBefore | StageKind::WholeMask => {}
            StageKind::Tested => add_count(&mut self.counts, key),
        }
    }

    /// Counts a rule with this key no longer.
    pub(crate) fn take(&mut self, key: &Key)
        requires { IsCounted self.old (numbers key.now) }
        ensures { CountsOneLess (numbers key.now) self.old self.new }
    {
        match self.kind {
            StageKind::LikeTheOneBefore | StageKind::WholeMask => {}
            StageKind::Tested => take_count(&mut self.counts, key),
        }
    }

    /// What the stage tells of a key that some rule agrees with on the part before.
    pub(crate) fn step(&self, key: &PacketKey<'_>) -> Step
        ensures { (before part mask : List ℕ) (rs : List Rule)
            → IsStage self.now before part mask rs
            → IsStep result before part mask (numbers key.now.key.now) rs }
    {
        match self.kind {
            StageKind::LikeTheOneBefore => Step::Passes,
            StageKind::WholeMask => Step::Decides,
            StageKind::Tested => tested(self.agrees(key)),
        }
    }

    /// Whether one of the rules agrees with a key on the part, where the stage tests them.
    fn agrees(&self, key: &PacketKey<'_>) -> bool
        ensures { (before part mask : List ℕ) (rs : List Rule)
            → IsStage self.now before part mask rs → self.now.kind ≡ kinds.Tested
            → result ≡ some_agrees rs (numbers key.now.key.now) part }
    {
        count_of_packet(&self.counts, key) > 0
    }
}

fn tested(agrees: bool) -> Step
    ensures passes { result ≡ steps.Passes → agrees ≡ true }
    ensures ends { result ≡ steps.Ends → agrees ≡ false }
    ensures tells { result ≡ steps.Decides → ⊥ }
{
    if agrees { Step::Passes } else { Step::Ends }
}

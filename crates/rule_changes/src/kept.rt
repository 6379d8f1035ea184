//! Bits that no action writes.
ghost use Rattle.std.specs.Prelude.{◌≡◌, true, IsTrue, Some};
ghost use Rattle.std.specs.List.{list_all};
ghost use Rattle.spec_keys.specs.Keys.{are_zero};
ghost use Rattle.spec_xlate.specs.Tags.{tag_fields};
ghost use Rattle.ovs_fields.specs.Packed.{bits};
ghost use Rattle.spec_tables.specs.Rules as tables;
ghost use Rattle.spec_tables.specs.Live.{rule_numbered};
ghost use Rattle.pipe_model.specs.Runnable.{AreRunnable};
ghost use Rattle.dump_lines.specs.Live.{IsOfEdits, live_in};
ghost use Rattle.rule_changes.specs.Lockstep.{keeps, written_with};
ghost use Rattle.rule_changes.specs.Changes.{AllKeep};

use crate::live_rule::live_rule;
use named_fields::{low_bits, named};
use ovs_fields::{FieldId, Mask, all_fields, or, width};
use rule_tables::{OfAction, VersionedRules};

/// Whether a mask has no bits of tags.
fn has_no_tags(kept: &Mask) -> bool
    ensures { result ≡ are_zero tag_fields (bits kept.now) }
{
    (kept.get(FieldId::VlanTci) == 0)
        & ((kept.get(FieldId::VlanTpid) == 0)
            & ((kept.get(FieldId::VlanTci2) == 0) & (kept.get(FieldId::VlanTpid2) == 0)))
}

/// Whether a mask has no bits of what changes where a field is written.
fn has_none_with(kept: &Mask, field: FieldId) -> bool
    ensures { result ≡ are_zero (written_with field) (bits kept.now) }
{
    match field {
        FieldId::VlanTci => has_no_tags(kept),
        field => kept.get(field) == 0,
    }
}

/// Whether an action leaves all bits of a mask.
fn keeps(kept: &Mask, action: OfAction) -> bool
    ensures { result ≡ keeps (bits kept.now) action }
{
    match action {
        OfAction::Output(_) => true,
        OfAction::OutputField(_) => true,
        OfAction::InPort => true,
        OfAction::All => true,
        OfAction::Flood => true,
        OfAction::Resubmit(_) => true,
        OfAction::Goto(_) => true,
        OfAction::Set { name, .. } => has_none_with(kept, named(name).field),
        OfAction::Move { to, .. } => has_none_with(kept, named(to.name).field),
        OfAction::DecTtl => kept.get(FieldId::NwTtl) == 0,
        OfAction::PushVlan(_) => has_no_tags(kept),
        OfAction::PopVlan => has_no_tags(kept),
        OfAction::SetVid(_) => has_no_tags(kept),
        OfAction::SetPcp(_) => has_no_tags(kept),
    }
}

/// Whether all of these do.
fn keep_all(kept: &Mask, actions: &[OfAction]) -> bool
    ensures { result ≡ list_all (keeps (bits kept.now)) actions.now }
{
    actions.iter().all(|action| keeps(kept, *action))
}

/// Whether the actions of the live rule of a number do, if there is one.
fn rule_keeps(kept: &Mask, rules: &VersionedRules, number: u32) -> bool
    requires { IsOfEdits rules.now }
    ensures { IsTrue result → (r : tables.Rule) → rule_numbered number (live_in rules.now) ≡ Some r
        → IsTrue (list_all (keeps (bits kept.now)) r.actions) }
{
    match live_rule(rules, number) {
        None => true,
        Some(found) => keep_all(kept, found.actions),
    }
}

/// Whether the actions of all live rules do.
fn all_keep(kept: &Mask, rules: &VersionedRules) -> bool
    requires of_edits { IsOfEdits rules.now }
    requires runnable { AreRunnable (live_in rules.now) }
    ensures { result ≡ true → AllKeep (live_in rules.now) (bits kept.now) }
{
    'numbers: for before in 0..rules.edits() {
        if !rule_keeps(kept, rules, before + 1) {
            return false;
        }
    }
    true
}

/// All bits of the fields that no action of a live rule writes.
fn untouched(rules: &VersionedRules) -> Mask
    requires of_edits { IsOfEdits rules.now }
    requires runnable { AreRunnable (live_in rules.now) }
{
    let mut kept = Mask::none();
    for field in all_fields() {
        let mut all = Mask::none();
        all.add(*field, low_bits(width(*field)));
        if all_keep(&all, rules) {
            kept = or(&kept, &all);
        }
    }
    kept
}

/// Bits that no action of a live rule writes: all of them that no action does, as far as known.
pub(crate) fn kept_bits(rules: &VersionedRules) -> Mask
    requires of_edits { IsOfEdits rules.now }
    requires runnable { AreRunnable (live_in rules.now) }
    ensures { AllKeep (live_in rules.now) (bits result) }
{
    let kept = untouched(rules);
    if all_keep(&kept, rules) {
        kept
    } else {
        Mask::none()
    }
}

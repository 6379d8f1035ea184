//! The fields that an action writes.
ghost use Rattle.std.specs.Prelude.{◌≡◌, ◌==◌, if◌then◌else◌, map};
ghost use Rattle.spec_keys.specs.Fields.{place_of};
ghost use Rattle.spec_keys.specs.Keys.{value_of, none, joined, only_at};
ghost use Rattle.spec_xlate.specs.Lookup.{added};
ghost use Rattle.spec_xlate.specs.Consulted.{whole};
ghost use Rattle.rule_changes.specs.Lockstep.{written_with};
ghost use Rattle.ovs_fields.specs.Packed.{bits};
ghost use Rattle.table_diff.specs.Following.{writes, with_left, forgotten};

use crate::whole::{add_field, add_whole};
use named_fields::named;
use ovs_fields::{FieldId, Mask, all_fields};
use rule_tables::OfAction;

/// The fields in which a key holds its tags, which change together.
pub(crate) const TAG_FIELDS: [FieldId; 4] = [
    FieldId::VlanTci,
    FieldId::VlanTpid,
    FieldId::VlanTci2,
    FieldId::VlanTpid2,
];

/// Adds the fields that change where one is written.
fn add_with(mask: &mut Mask, field: FieldId)
    ensures { bits mask.new ≡ added (bits mask.old) (map whole (written_with field)) }
{
    match field {
        FieldId::VlanTci => add_whole(mask, &TAG_FIELDS),
        field => add_field(mask, field),
    }
}

/// Adds the fields that an action writes.
pub fn add_written(mask: &mut Mask, action: OfAction)
    ensures { bits mask.new ≡ added (bits mask.old) (writes action) }
{
    match action {
        OfAction::Output(_) => {}
        OfAction::OutputField(_) => {}
        OfAction::InPort => {}
        OfAction::All => {}
        OfAction::Flood => {}
        OfAction::Resubmit(_) => {}
        OfAction::Goto(_) => {}
        OfAction::Set { name, .. } => add_with(mask, named(name).field),
        OfAction::Move { to, .. } => add_with(mask, named(to.name).field),
        OfAction::DecTtl => add_field(mask, FieldId::NwTtl),
        OfAction::PushVlan(_) => add_whole(mask, &TAG_FIELDS),
        OfAction::PopVlan => add_whole(mask, &TAG_FIELDS),
        OfAction::SetVid(_) => add_whole(mask, &TAG_FIELDS),
        OfAction::SetPcp(_) => add_whole(mask, &TAG_FIELDS),
    }
}

/// Adds the bits that a mask has of a field of which another one has none.
fn add_left(left: &mut Mask, known: &Mask, written: &Mask, field: FieldId)
    ensures { bits left.new ≡ (if value_of (bits written.now) field == 0
        then joined (bits left.old) (only_at (place_of field) (value_of (bits known.now) field)) else bits left.old) }
{
    if written.get(field) == 0 {
        left.add(field, known.get(field));
    }
}

/// The bits that a mask has of the fields of which another one has none.
fn left_of(known: &Mask, written: &Mask, fields: &[FieldId]) -> Mask
    ensures { bits result ≡ with_left (bits known.now) (bits written.now) fields.now none }
{
    let mut left = Mask::none();
    'fields: for field in fields {
        add_left(&mut left, known, written, *field);
    }
    left
}

/// Known bits but for those of the fields that an action writes.
pub(crate) fn forgotten(action: OfAction, known: &Mask) -> Mask
    ensures { bits result ≡ forgotten action (bits known.now) }
{
    let mut written = Mask::none();
    add_written(&mut written, action);
    left_of(known, &written, all_fields())
}

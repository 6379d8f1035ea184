//! The frames that two versions send last, and whether these differ.
ghost use Rattle.std.specs.Prelude.{◌≡◌, [], ◌∷◌, true};
ghost use Rattle.std.specs.List.{list_any};
ghost use Rattle.spec_keys.specs.Fields.{fields};
ghost use Rattle.spec_base.specs.Bits.{merged};
ghost use Rattle.ovs_fields.specs.Packed.{numbers};
ghost use Rattle.table_diff.specs.Sending.{is_same_field, is_frame_field, number_after};
ghost use Rattle.table_diff.specs.Ways.{AreSentOtherwise, is_sent_otherwise};

use crate::choosing::filled;
use crate::way::Way;
use crate::ways::is_none;
use dp_actions::DpAction;
use ovs_fields::{FieldId, Key, Mask, all_fields};

/// Whether two fields are one.
fn is_same_field(field: FieldId, other: FieldId) -> bool
    ensures { result ≡ is_same_field field other }
{
    field == other
}

/// Whether a field is one that datapath actions write in its place.
fn is_frame_field(field: FieldId) -> bool
    ensures { result ≡ is_frame_field field }
{
    match field {
        FieldId::DlSrc | FieldId::DlDst => true,
        FieldId::NwSrc | FieldId::NwDst | FieldId::Ipv6Src | FieldId::Ipv6Dst => true,
        FieldId::NwTos | FieldId::NwTtl => true,
        FieldId::ArpSha | FieldId::ArpTha => true,
        FieldId::TpSrc | FieldId::TpDst => true,
        _ => false,
    }
}

/// A number with these bits of another.
fn merged(number: u128, value: u128, mask: u128) -> u128
    ensures { result ≡ merged number value mask }
{
    number ^ ((number ^ value) & mask)
}

/// The number of such a field after a datapath action.
fn after_one(action: &DpAction, field: FieldId, number: u128) -> u128
    ensures { result ≡ number_after field (action.now ∷ []) number }
{
    match action {
        DpAction::Output(_) => number,
        DpAction::PopVlan => number,
        DpAction::PushVlan { .. } => number,
        DpAction::Set {
            field: written,
            value,
            mask,
        } => {
            if is_same_field(field, *written) {
                merged(number, *value, *mask)
            } else {
                number
            }
        }
    }
}

/// The number of such a field after datapath actions.
fn number_after(actions: &[DpAction], field: FieldId, number: u128) -> u128
    ensures { result ≡ number_after field actions.now number }
{
    let mut after = number;
    'actions: for action in actions {
        after = after_one(action, field, after);
    }
    after
}

/// Whether both ways send last a frame in which a bit of a field is told, and that isn't the same bit.
fn is_sent_otherwise(old: &Way, new: &Way, key: &Key, field: FieldId) -> bool
    ensures { result ≡ is_sent_otherwise (numbers key.now) old.now new.now field }
{
    let number = key.get(field);
    let before = number_after(old.actions.as_slice(), field, number) & old.sent.get(field);
    let after = number_after(new.actions.as_slice(), field, number) & new.sent.get(field);
    is_frame_field(field) & ((before & new.sent.get(field)) != (after & old.sent.get(field)))
}

/// Whether that is so of some field.
fn is_any_sent_otherwise(old: &Way, new: &Way, key: &Key) -> bool
    ensures { result ≡ list_any (λ f. is_sent_otherwise (numbers key.now) old.now new.now f) fields }
{
    all_fields()
        .iter()
        .any(|field| is_sent_otherwise(old, new, key, *field))
}

/// Whether both ways send such frames, and that is so of some field.
pub(crate) fn are_sent_otherwise(old: &Way, new: &Way, key: &Key) -> bool
    ensures { result ≡ true → AreSentOtherwise (numbers key.now) old.now new.now }
{
    let some = !is_none(old.actions.as_slice()) & !is_none(new.actions.as_slice());
    let apart = is_any_sent_otherwise(old, new, key);
    (old.fine & new.fine) & (some & apart)
}

/// Adds the first bit in which two numbers of a field differ, of those that are told, and tells whether there is one.
fn add_first(mask: &mut Mask, field: FieldId, differing: u128, told: &Mask) -> bool {
    let bits = told.get(field);
    let differing = differing & bits;
    if differing == 0 {
        return false;
    }
    mask.add(field, differing & !(filled(differing) >> 1) & bits);
    true
}

/// Adds a bit in which the frames that both ways send last may differ, for all packets that agree on it, and tells
/// whether there is one. Whether it decides is checked, so nothing is proved of the choice.
pub(crate) fn add_sent(mask: &mut Mask, old: &Way, new: &Way, key: &Key) -> bool {
    for field in all_fields() {
        let number = key.get(*field);
        let before = number_after(old.actions.as_slice(), *field, number);
        let after = number_after(new.actions.as_slice(), *field, number);
        if is_frame_field(*field) {
            if add_first(mask, *field, before ^ after, &old.sent) {
                return true;
            }
            if add_first(mask, *field, before ^ after, &new.sent) {
                return true;
            }
        }
    }
    false
}

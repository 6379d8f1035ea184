//! The bits that each action consults, added to a mask.
ghost use Rattle.std.specs.Prelude.{◌≡◌, [], ◌∷◌, map, IsTrue};
ghost use Rattle.spec_keys.specs.declared.field_id.FieldId.TheVariants as field;
ghost use Rattle.spec_actions.specs.declared.action.OfAction.TheVariants.{Move};
ghost use Rattle.spec_actions.specs.declared.named_field.Prerequisite.TheVariants as needs;
ghost use Rattle.spec_actions.specs.Named.{named};
ghost use Rattle.spec_actions.specs.Sound.{is_sound, is_sound_slice};
ghost use Rattle.spec_xlate.specs.Needs.{is_met, fields_needed};
ghost use Rattle.spec_xlate.specs.Translation.{slice_bits, written_bits};
ghost use Rattle.spec_xlate.specs.Lookup.{added};
ghost use Rattle.spec_xlate.specs.Consulted.{whole, bits_written, slice_read, under, write_bits, start_bits};
ghost use Rattle.ovs_fields.specs.Packed.{numbers, bits};
ghost use Rattle.xlate_pipeline.specs.Steps.{step_bits};

use crate::fields::{
    TAG_FIELDS, consult_fields, consult_read, consult_tags, consult_whole, consult_written,
};
use named_fields::{NamedField, Prerequisite, Slice, holds, named, slice_bits};
use ovs_fields::{FieldId, Key, Mask};
use rule_tables::OfAction;

/// The fields that say whether a packet is what a write needs (ovs-fields(7), "Prerequisites").
#[tactic(auto, unfolding(spec_xlate::specs::Needs::fields_needed))]
fn fields_needed(needs: Prerequisite) -> &'static [FieldId]
    ensures { result.now ≡ fields_needed needs }
{
    match needs {
        Prerequisite::Nothing => &[],
        Prerequisite::Ipv4 | Prerequisite::Ipv6 | Prerequisite::Ip | Prerequisite::Arp => {
            &[FieldId::DlType]
        }
        Prerequisite::Tcp | Prerequisite::Udp | Prerequisite::TcpOrUdp => {
            &[FieldId::DlType, FieldId::NwProto, FieldId::IpFrag]
        }
        Prerequisite::Icmp | Prerequisite::Icmp6 => &[FieldId::DlType, FieldId::NwProto],
        Prerequisite::Tag => &TAG_FIELDS,
    }
}

/// Consults what every translation does: where the packet came in, and what kind it is.
pub(crate) fn consult_start(mask: &mut Mask, key: &Key)
    ensures { bits mask.new ≡ added (bits mask.old) (start_bits (numbers key.now)) }
{
    consult_whole(mask, FieldId::InPort);
    consult_whole(mask, FieldId::DlType);
    if holds(key, Prerequisite::Ip) {
        consult_whole(mask, FieldId::IpFrag);
    }
}

/// Consults whether a packet is what a write needs, and answers it.
fn consult_needs(mask: &mut Mask, key: &Key, needs: Prerequisite) -> bool
    ensures met { result ≡ is_met needs (numbers key.now) }
    ensures mask { bits mask.new ≡ added (bits mask.old) (map whole (fields_needed needs)) }
{
    consult_fields(mask, fields_needed(needs));
    holds(key, needs)
}

/// Consults the bits that a slice reads.
fn consult_slice(mask: &mut Mask, slice: &Slice)
    requires { IsTrue (is_sound_slice slice.now) }
    ensures { bits mask.new ≡ added (bits mask.old) (slice_read slice.now) }
{
    let at = named(slice.name);
    consult_read(mask, at.field, slice_bits(slice) << at.low);
}

/// Consults those of these bits of a named field that a write may change.
fn consult_target(mask: &mut Mask, name: NamedField, written: u128)
    ensures { bits mask.new ≡ added (bits mask.old) (bits_written (named name).field (written_bits name written)) }
{
    let at = named(name);
    consult_written(mask, at.field, (written & at.writable) << at.low);
}

/// Consults what a write of a value does.
fn consult_set(mask: &mut Mask, key: &Key, name: NamedField, written: u128)
    ensures { bits mask.new ≡ added (bits mask.old) (write_bits name written [] (numbers key.now)) }
{
    if consult_needs(mask, key, named(name).write_needs) {
        consult_target(mask, name, written);
    }
}

/// Consults what a copy of bits does.
fn consult_move(mask: &mut Mask, key: &Key, from: Slice, to: Slice)
    requires { IsTrue (is_sound (Move from to)) }
    ensures { bits mask.new ≡ added (bits mask.old) (write_bits to.name (slice_bits to) (slice_read from) (numbers key.now)) }
{
    if consult_needs(mask, key, named(to.name).write_needs) {
        consult_slice(mask, &from);
        consult_target(mask, to.name, slice_bits(&to));
    }
}

/// Consults the TTL or hop limit of an IP packet.
fn consult_ttl(mask: &mut Mask, key: &Key)
    ensures { bits mask.new ≡ added (bits mask.old) (under needs.Ip (numbers key.now) (whole field.NwTtl ∷ [])) }
{
    if consult_needs(mask, key, Prerequisite::Ip) {
        consult_whole(mask, FieldId::NwTtl);
    }
}

/// Consults what an action does on a packet of a key. One that leads to a lookup consults nothing here.
#[tactic(auto, unfolding(spec_xlate::specs::Consulted::act_bits))]
pub fn consult(mask: &mut Mask, key: &Key, action: OfAction)
    requires { IsTrue (is_sound action) }
    ensures { bits mask.new ≡ added (bits mask.old) (step_bits action (numbers key.now)) }
{
    match action {
        OfAction::Output(_) | OfAction::InPort | OfAction::All | OfAction::Flood => {}
        OfAction::OutputField(slice) => consult_slice(mask, &slice),
        OfAction::Resubmit(_) | OfAction::Goto(_) => {}
        OfAction::Set {
            name,
            value: _,
            mask: written,
        } => consult_set(mask, key, name, written),
        OfAction::Move { from, to } => consult_move(mask, key, from, to),
        OfAction::DecTtl => consult_ttl(mask, key),
        OfAction::PushVlan(_) | OfAction::PopVlan | OfAction::SetVid(_) | OfAction::SetPcp(_) => {
            consult_tags(mask);
        }
    }
}

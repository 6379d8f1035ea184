ghost use Rattle.std.specs.Prelude.{◌≡◌};
ghost use Rattle.spec_keys.specs.Keys.{agree, covers, common_bits, joined, masked, same};
ghost use Rattle.spec_keys.specs.Stages.{staged, metadata_stage, ethernet_stage, network_stage};
ghost use Rattle.ovs_fields.specs.Packed.{numbers, bits};
ghost use Rattle.ovs_fields.specs.Lists.{from_reg7, from_dl_src, from_nw_tos};

use crate::field_list::{
    with_fields, with_fields_from_dl_src, with_fields_from_in_port, with_fields_from_nw_tos,
    with_fields_from_reg7,
};
use crate::fields::Fields;
use crate::{Key, Mask};

/// Whether two keys have the same bits in these fields, wherever a mask has 1, and the rest of the test holds. The test is
/// nested as the lists of its contracts are.
macro_rules! agree_in {
    (($a:ident, $b:ident, $mask:ident, $rest:expr)) => { $rest };
    (($a:ident, $b:ident, $mask:ident, $rest:expr) $name:ident $($more:ident)*) => {
        ($a.$name & $mask.$name == $b.$name & $mask.$name) & (agree_in!(($a, $b, $mask, $rest) $($more)*))
    };
}

#[tactic(auto, unfolding(spec_keys::specs::Keys::masked, spec_keys::specs::Keys::same))]
fn agree_from_nw_tos(a: &Fields, b: &Fields, mask: &Fields) -> bool
    ensures { result ≡ same (masked (from_nw_tos a.now) (from_nw_tos mask.now)) (masked (from_nw_tos b.now) (from_nw_tos mask.now)) }
{
    with_fields_from_nw_tos!(agree_in(a, b, mask, true))
}

#[tactic(auto, unfolding(spec_keys::specs::Keys::masked, spec_keys::specs::Keys::same))]
fn agree_from_dl_src(a: &Fields, b: &Fields, mask: &Fields) -> bool
    ensures { result ≡ same (masked (from_dl_src a.now) (from_dl_src mask.now)) (masked (from_dl_src b.now) (from_dl_src mask.now)) }
{
    with_fields_from_dl_src!(agree_in(a, b, mask, (agree_from_nw_tos(a, b, mask))))
}

#[tactic(auto, unfolding(spec_keys::specs::Keys::masked, spec_keys::specs::Keys::same))]
fn agree_from_reg7(a: &Fields, b: &Fields, mask: &Fields) -> bool
    ensures { result ≡ same (masked (from_reg7 a.now) (from_reg7 mask.now)) (masked (from_reg7 b.now) (from_reg7 mask.now)) }
{
    with_fields_from_reg7!(agree_in(a, b, mask, (agree_from_dl_src(a, b, mask))))
}

/// Whether two keys have the same bits wherever a mask has 1.
#[tactic(auto, unfolding(spec_keys::specs::Keys::masked, spec_keys::specs::Keys::same))]
pub fn agree(a: &Key, b: &Key, mask: &Mask) -> bool
    ensures { result ≡ agree (numbers a.now) (numbers b.now) (bits mask.now) }
{
    let (a, b, mask) = (&a.fields, &b.fields, &mask.fields);
    with_fields_from_in_port!(agree_in(a, b, mask, (agree_from_reg7(a, b, mask))))
}

/// Whether the mask `a` has every bit of `b` in these fields, and the rest of the test holds.
macro_rules! covered_in {
    (($a:ident, $b:ident, $rest:expr)) => { $rest };
    (($a:ident, $b:ident, $rest:expr) $name:ident $($more:ident)*) => {
        ($a.$name | $b.$name == $a.$name) & (covered_in!(($a, $b, $rest) $($more)*))
    };
}

#[tactic(auto, unfolding(spec_keys::specs::Keys::joined, spec_keys::specs::Keys::same))]
fn covers_from_nw_tos(a: &Fields, b: &Fields) -> bool
    ensures { result ≡ same (joined (from_nw_tos a.now) (from_nw_tos b.now)) (from_nw_tos a.now) }
{
    with_fields_from_nw_tos!(covered_in(a, b, true))
}

#[tactic(auto, unfolding(spec_keys::specs::Keys::joined, spec_keys::specs::Keys::same))]
fn covers_from_dl_src(a: &Fields, b: &Fields) -> bool
    ensures { result ≡ same (joined (from_dl_src a.now) (from_dl_src b.now)) (from_dl_src a.now) }
{
    with_fields_from_dl_src!(covered_in(a, b, (covers_from_nw_tos(a, b))))
}

#[tactic(auto, unfolding(spec_keys::specs::Keys::joined, spec_keys::specs::Keys::same))]
fn covers_from_reg7(a: &Fields, b: &Fields) -> bool
    ensures { result ≡ same (joined (from_reg7 a.now) (from_reg7 b.now)) (from_reg7 a.now) }
{
    with_fields_from_reg7!(covered_in(a, b, (covers_from_dl_src(a, b))))
}

/// Whether every bit of the mask `b` is in `a`.
#[tactic(auto, unfolding(spec_keys::specs::Keys::joined, spec_keys::specs::Keys::same))]
pub fn covers(a: &Mask, b: &Mask) -> bool
    ensures { result ≡ covers (bits a.now) (bits b.now) }
{
    let (a, b) = (&a.fields, &b.fields);
    with_fields_from_in_port!(covered_in(a, b, (covers_from_reg7(a, b))))
}

macro_rules! in_common {
    (($a:ident, $b:ident) $([$variant:ident $name:ident $($more:tt)*])*) => {
        Fields { $($name: $a.$name & $b.$name,)* }
    };
}

/// The bits that both masks have.
#[tactic(auto, unfolding(spec_keys::specs::Keys::masked))]
pub fn and(a: &Mask, b: &Mask) -> Mask
    ensures { bits result ≡ common_bits (bits a.now) (bits b.now) }
{
    let (a, b) = (&a.fields, &b.fields);
    Mask {
        fields: with_fields!(in_common(a, b)),
    }
}

/// The bits of a key that a mask has, and 0 elsewhere.
#[tactic(auto, unfolding(spec_keys::specs::Keys::masked))]
pub fn masked(key: &Key, mask: &Mask) -> Key
    ensures { numbers result ≡ masked (numbers key.now) (bits mask.now) }
{
    let (key, mask) = (&key.fields, &mask.fields);
    Key {
        fields: with_fields!(in_common(key, mask)),
    }
}

macro_rules! in_either {
    (($a:ident, $b:ident) $([$variant:ident $name:ident $($more:tt)*])*) => {
        Fields { $($name: $a.$name | $b.$name,)* }
    };
}

/// The bits of either mask.
#[tactic(auto, unfolding(spec_keys::specs::Keys::joined))]
pub fn or(a: &Mask, b: &Mask) -> Mask
    ensures { bits result ≡ joined (bits a.now) (bits b.now) }
{
    let (a, b) = (&a.fields, &b.fields);
    Mask {
        fields: with_fields!(in_either(a, b)),
    }
}

/// The numbers of the fields that a macro keeps, which is called with a field's stage and its number.
macro_rules! part {
    (($mask:ident, $kept:ident) $([$variant:ident $name:ident $type:ident $bits:literal $stage:tt])*) => {
        Fields { $($name: $kept!($stage $mask.$name),)* }
    };
}

macro_rules! through_metadata {
    (0 $number:expr) => { $number };
    ($stage:tt $number:expr) => { 0 };
}

macro_rules! through_ethernet {
    (0 $number:expr) => { $number };
    (1 $number:expr) => { $number };
    ($stage:tt $number:expr) => { 0 };
}

macro_rules! through_network {
    (3 $number:expr) => { 0 };
    ($stage:tt $number:expr) => { $number };
}

/// The bits of a mask in the fields of stage 0: the packet's metadata.
#[tactic(auto, unfolding(spec_keys::specs::Stages::through, spec_keys::specs::Fields::stages))]
pub fn metadata_part(mask: &Mask) -> Mask
    ensures { bits result ≡ staged metadata_stage (bits mask.now) }
{
    let mask = &mask.fields;
    Mask {
        fields: with_fields!(part(mask, through_metadata)),
    }
}

/// The bits of a mask in the fields of stages 0 and 1: metadata and Ethernet.
#[tactic(auto, unfolding(spec_keys::specs::Stages::through, spec_keys::specs::Fields::stages))]
pub fn ethernet_part(mask: &Mask) -> Mask
    ensures { bits result ≡ staged ethernet_stage (bits mask.now) }
{
    let mask = &mask.fields;
    Mask {
        fields: with_fields!(part(mask, through_ethernet)),
    }
}

/// The bits of a mask in the fields of stages 0 to 2: all but the ports.
#[tactic(auto, unfolding(spec_keys::specs::Stages::through, spec_keys::specs::Fields::stages))]
pub fn network_part(mask: &Mask) -> Mask
    ensures { bits result ≡ staged network_stage (bits mask.now) }
{
    let mask = &mask.fields;
    Mask {
        fields: with_fields!(part(mask, through_network)),
    }
}

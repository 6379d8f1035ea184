ghost use Rattle.std.specs.Prelude.{◌≡◌, ◌<◌, ◌^◌, nat_lt, IfOk, IsTrue};
ghost use Rattle.spec_actions.specs.Sound.{is_written, is_sound_slice, is_sound};
ghost use Rattle.spec_flow_text.specs.Actions.{slice_width, load_of, load, move, has_tag_bit, set_of, set_field, modify};
ghost use Rattle.field_text.specs.Views.{bits_view, Fits};
ghost use Rattle.field_text.specs.WordViews.{word_view};

use crate::fields::{field_in, slice_name, written_field};
use crate::slices::slice_of;
use crate::words::{argument, arrow_argument};
use field_text::{Bits, TextFault, Word, read_value, read_whole_value};
use named_fields::slice_bits;
use spec_actions::{NamedField, OfAction, Slice};
use text_numbers::read_number;

// The bit of `vlan_vid` that says that there is a tag.
const TAG_BIT: u128 = 0x1000;

#[tactic(auto, using(crate::proofs::Loads::fits_test))]
fn fits(number: u128, slice: Slice) -> bool
    requires { IsTrue (is_sound_slice slice) }
    ensures { result ≡ nat_lt number (2 ^ slice_width slice) }
{
    number >> (slice.high - slice.low) <= 1
}

#[tactic(auto, using(crate::proofs::Loads::shifted, crate::proofs::Loads::shifted_fits, crate::proofs::Loads::mask_shifted))]
fn load_of(slice: Slice, number: u128) -> OfAction
    requires written { IsTrue (is_written slice.name) }
    requires within { IsTrue (is_sound_slice slice) }
    requires fits { number < 2 ^ slice_width slice }
    ensures value { result ≡ load_of slice number }
    ensures sound { IsTrue (is_sound result) }
{
    OfAction::Set {
        name: slice.name,
        value: number << slice.low,
        mask: slice_bits(&slice),
    }
}

/// A write of a number to bits of a field: `load:NUMBER->SLICE`.
#[tactic(auto, unfolding(spec_flow_text::specs::Actions::load))]
pub fn load(item: Word<'_>) -> Result<OfAction, TextFault>
    ensures value { result ≡ load (word_view item.entry) }
    ensures sound { IfOk result (λ action. IsTrue (is_sound action)) }
{
    let (value, target) = arrow_argument(item)?;
    let field = written_field(item, slice_name(target))?;
    let Some(number) = read_number(value.text, u128::MAX) else {
        return Err(TextFault::BadValue {
            col: value.column(),
        });
    };
    let slice = slice_of(field, target)?;
    if fits(number, slice) {
        Ok(load_of(slice, number))
    } else {
        Err(TextFault::BadValue {
            col: value.column(),
        })
    }
}

/// A copy of bits: `move:SLICE->SLICE`.
pub fn move_bits(item: Word<'_>) -> Result<OfAction, TextFault>
    ensures value { result ≡ move (word_view item.entry) }
    ensures sound { IfOk result (λ action. IsTrue (is_sound action)) }
{
    let (from, to) = arrow_argument(item)?;
    let source = field_in(item, slice_name(from))?;
    let target = written_field(item, slice_name(to))?;
    let source = slice_of(source, from)?;
    let target = slice_of(target, to)?;
    if source.high - source.low == target.high - target.low {
        Ok(OfAction::Move {
            from: source,
            to: target,
        })
    } else {
        Err(TextFault::BadValue { col: to.column() })
    }
}

// A write of the VLAN identifier says that there is a tag.
fn has_tag_bit(field: NamedField, bits: Bits) -> bool
    ensures { result ≡ has_tag_bit field (bits_view bits) }
{
    match field {
        NamedField::VlanVid => bits.value & TAG_BIT == TAG_BIT,
        _ => true,
    }
}

#[tactic(auto, using(crate::proofs::Loads::masked_fits, crate::proofs::Loads::mask_fits))]
fn set_of(field: NamedField, bits: Bits) -> OfAction
    requires written { IsTrue (is_written field) }
    requires fits { Fits field bits }
    ensures value { result ≡ set_of field (bits_view bits) }
    ensures sound { IsTrue (is_sound result) }
{
    OfAction::Set {
        name: field,
        value: bits.value & bits.mask,
        mask: bits.mask,
    }
}

/// A write of a value to a field: `set_field:VALUE->FIELD`, where the value may have a mask.
#[tactic(auto, unfolding(spec_flow_text::specs::Actions::set_field))]
pub fn set_field(item: Word<'_>) -> Result<OfAction, TextFault>
    ensures value { result ≡ set_field (word_view item.entry) }
    ensures sound { IfOk result (λ action. IsTrue (is_sound action)) }
{
    let (value, target) = arrow_argument(item)?;
    let field = written_field(item, target)?;
    let Some(bits) = read_value(field, value.text) else {
        return Err(TextFault::BadValue {
            col: value.column(),
        });
    };
    if has_tag_bit(field, bits) {
        Ok(set_of(field, bits))
    } else {
        Err(TextFault::BadValue {
            col: value.column(),
        })
    }
}

/// A write of a value to a whole field: `mod_dl_src:VALUE` and its kin.
#[tactic(auto, unfolding(spec_flow_text::specs::Actions::modify))]
pub fn modify(field: NamedField, item: Word<'_>) -> Result<OfAction, TextFault>
    requires { IsTrue (is_written field) }
    ensures value { result ≡ modify field (word_view item.entry) }
    ensures sound { IfOk result (λ action. IsTrue (is_sound action)) }
{
    let value = argument(item)?;
    match read_whole_value(field, value.text) {
        Some(bits) => Ok(set_of(field, bits)),
        None => Err(TextFault::BadValue {
            col: value.column(),
        }),
    }
}

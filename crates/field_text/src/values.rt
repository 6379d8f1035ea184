ghost use Rattle.std.specs.Prelude.{◌≡◌, ℕ, ◌<◌, ◌≤◌, ◌^◌, IfSome};
ghost use Rattle.std.specs.Option.{option_map, option_and_then};
ghost use Rattle.spec_base.specs.Bits.{all_bits};
ghost use Rattle.spec_actions.specs.Named.{named};
ghost use Rattle.spec_flow_text.specs.Numbers.{number_upto, last_port, nonzero};
ghost use Rattle.spec_flow_text.specs.Names.{meaning_of};
ghost use Rattle.spec_flow_text.specs.Values as values;
ghost use Rattle.field_text.specs.Views.{bits_view, limit, AreBelow, Fits};

use crate::words::meaning_of;
use named_fields::{low_bits, named};
use spec_actions::NamedField;
use spec_flow_text::ValueForm;
use text_numbers::{
    LAST_PORT, as_port, cut_at, read_ipv4, read_ipv4_mask, read_ipv6, read_ipv6_mask, read_mac,
    read_number,
};

/// Bits of a named field: a value as it is written, and the mask of the bits that count.
#[derive(Clone, Copy)]
pub struct Bits {
    pub value: u128,
    pub mask: u128,
}

/// The same bits, of which those outside the mask are 0.
pub fn within_mask(bits: Bits) -> Bits
    ensures value { bits_view result ≡ values.within_mask (bits_view bits) }
    ensures below { (width : ℕ) → AreBelow width bits → AreBelow width result }
{
    Bits {
        value: bits.value & bits.mask,
        mask: bits.mask,
    }
}

fn form_of(field: NamedField) -> ValueForm
    ensures { result ≡ values.form_of field }
{
    match field {
        NamedField::InPort => ValueForm::Port,
        NamedField::DlSrc | NamedField::DlDst | NamedField::ArpSha | NamedField::ArpTha => {
            ValueForm::Mac
        }
        NamedField::NwSrc | NamedField::NwDst | NamedField::ArpSpa | NamedField::ArpTpa => {
            ValueForm::Ipv4
        }
        NamedField::Ipv6Src | NamedField::Ipv6Dst => ValueForm::Ipv6,
        NamedField::IpFrag => ValueForm::Fragment,
        _ => ValueForm::Number,
    }
}

// All bits of a named field.
pub fn bits_of(field: NamedField) -> u128
    ensures { result ≡ all_bits (named field).bits }
{
    low_bits(named(field).bits)
}

// Types and codes of ICMP and ICMPv6 have 8 bits (RFC 792, RFC 4443), and stand in ports, which have 16.
const LAST_ICMP: u128 = 255;

// The greatest number of a named field.
fn most_of(field: NamedField) -> u128
    ensures { result ≡ values.most_of field }
{
    match field {
        NamedField::IcmpType
        | NamedField::IcmpCode
        | NamedField::Icmpv6Type
        | NamedField::Icmpv6Code => LAST_ICMP,
        _ => bits_of(field),
    }
}

fn read_port(text: &[u8]) -> Option<u16>
    ensures { result ≡ option_and_then nonzero (number_upto last_port text.now) }
{
    let number = read_number(text, u128::from(LAST_PORT))?;
    as_port(number)
}

// A value in its form, at most so much where it is a number.
#[tactic(auto, unfolding(spec_flow_text::specs::Values::value_in))]
fn read_in_form(form: ValueForm, most: u128, text: &[u8]) -> Option<u128>
    ensures value { result ≡ values.value_in form most text.now }
    ensures fits { IfSome result (λ value. value < limit form most) }
{
    match form {
        ValueForm::Port => read_port(text).map(u128::from),
        ValueForm::Number => read_number(text, most),
        ValueForm::Mac => read_mac(text).map(u128::from),
        ValueForm::Ipv4 => read_ipv4(text).map(u128::from),
        ValueForm::Ipv6 => read_ipv6(text),
        ValueForm::Fragment => None,
    }
}

// A mask, in the form of its value; that of an IP address may be a length.
#[tactic(auto, unfolding(spec_flow_text::specs::Values::mask_in))]
fn read_mask(form: ValueForm, most: u128, text: &[u8]) -> Option<u128>
    ensures value { result ≡ values.mask_in form most text.now }
    ensures fits { IfSome result (λ mask. mask < limit form most) }
{
    match form {
        ValueForm::Number => read_number(text, most),
        ValueForm::Mac => read_mac(text).map(u128::from),
        ValueForm::Ipv4 => read_ipv4_mask(text).map(u128::from),
        ValueForm::Ipv6 => read_ipv6_mask(text),
        ValueForm::Port | ValueForm::Fragment => None,
    }
}

/// The value of a whole field: all its bits count.
#[tactic(auto, unfolding(spec_flow_text::specs::Values::whole_value))]
pub fn read_whole_value(field: NamedField, text: &[u8]) -> Option<Bits>
    ensures value { option_map bits_view result ≡ values.whole_value field text.now }
    ensures fits { IfSome result (λ bits. Fits field bits) }
{
    let value = read_in_form(form_of(field), most_of(field), text)?;
    Some(Bits {
        value,
        mask: bits_of(field),
    })
}

// A value and a mask, where a match may mask the field.
#[tactic(auto, unfolding(spec_flow_text::specs::Values::masked_value))]
fn read_masked_value(field: NamedField, value: &[u8], mask: &[u8]) -> Option<Bits>
    ensures value { option_map bits_view result ≡ values.masked_value field (value.now, mask.now) }
    ensures fits { IfSome result (λ bits. Fits field bits) }
{
    let value = read_in_form(form_of(field), most_of(field), value)?;
    let mask = read_mask(form_of(field), most_of(field), mask)?;
    if named(field).maskable {
        Some(Bits { value, mask })
    } else {
        None
    }
}

// The kinds of fragments (ovs-fields(7), ip_frag).
const FRAGMENT_WORDS: [(&str, Bits); 5] = [
    ("no", Bits { value: 0, mask: 3 }),
    ("first", Bits { value: 1, mask: 3 }),
    ("later", Bits { value: 3, mask: 3 }),
    ("yes", Bits { value: 1, mask: 1 }),
    ("not_later", Bits { value: 0, mask: 2 }),
];

fn read_fragment(text: &[u8]) -> Option<Bits>
    ensures value { option_map bits_view result ≡ meaning_of values.fragment_words text.now }
    ensures fits { IfSome result (λ bits. Fits NamedField.IpFrag bits) }
{
    meaning_of(&FRAGMENT_WORDS, text)
}

/// What `VALUE` or `VALUE/MASK` says of a named field.
#[tactic(auto, unfolding(spec_flow_text::specs::Values::value_of))]
pub fn read_value(field: NamedField, text: &[u8]) -> Option<Bits>
    ensures value { option_map bits_view result ≡ values.value_of field text.now }
    ensures fits { IfSome result (λ bits. Fits field bits) }
{
    if let NamedField::IpFrag = field {
        return read_fragment(text);
    }
    match cut_at(text, b'/') {
        Some((value, mask)) => read_masked_value(field, value, mask),
        None => read_whole_value(field, text),
    }
}

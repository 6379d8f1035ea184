ghost use Rattle.std.specs.Prelude.{◌≡◌, ◌<◌, ◌≤◌, ◌^◌, ◌++◌, OnOk, OnErr, string_bytes};
ghost use Rattle.std.specs.Option.{option_map};
ghost use Rattle.spec_base.specs.Bits.{all_bits};
ghost use Rattle.spec_actions.specs.Named.{named};
ghost use Rattle.spec_flow_text.specs.Printed as printed;
ghost use Rattle.text_numbers.specs.Added.{Adds};
ghost use Rattle.field_text.specs.Views.{bits_view, Fits};
ghost use Rattle.field_text.specs.PrintedForms.{form_view, width_of_form};

use crate::values::{Bits, bits_of};
use spec_actions::NamedField;
use std::alloc::AllocError;
use text_numbers::{
    print_decimal, print_hexadecimal, print_hexadecimal4, print_ipv4, print_ipv4_mask, print_ipv6,
    print_ipv6_mask, print_mac,
};

// How the values of a field are printed.
#[derive(Clone, Copy)]
pub enum PrintedForm {
    Decimal,
    Hexadecimal,
    FourDigits,
    Mac,
    Ipv4,
    Ipv6,
    Fragment,
}

// The form in which a named field is printed: that of its field, where it is all of it.
fn printed_form(field: NamedField) -> PrintedForm
    ensures form { form_view result ≡ printed.printed_form field }
    ensures wide { (named field).bits ≤ width_of_form (form_view result) }
{
    match field {
        NamedField::Metadata
        | NamedField::Reg0
        | NamedField::Reg1
        | NamedField::Reg2
        | NamedField::Reg3
        | NamedField::Reg4
        | NamedField::Reg5
        | NamedField::Reg6
        | NamedField::Reg7
        | NamedField::Reg8
        | NamedField::Reg9
        | NamedField::Reg10
        | NamedField::Reg11
        | NamedField::Reg12
        | NamedField::Reg13
        | NamedField::Reg14
        | NamedField::Reg15 => PrintedForm::Hexadecimal,
        NamedField::DlSrc | NamedField::DlDst | NamedField::ArpSha | NamedField::ArpTha => {
            PrintedForm::Mac
        }
        NamedField::DlType
        | NamedField::VlanTci
        | NamedField::VlanTpid
        | NamedField::VlanTci2
        | NamedField::VlanTpid2 => PrintedForm::FourDigits,
        NamedField::NwSrc | NamedField::NwDst | NamedField::ArpSpa | NamedField::ArpTpa => {
            PrintedForm::Ipv4
        }
        NamedField::Ipv6Src | NamedField::Ipv6Dst => PrintedForm::Ipv6,
        NamedField::IpFrag => PrintedForm::Fragment,
        _ => PrintedForm::Decimal,
    }
}

// The word for the kind of a fragment, if there is one.
fn fragment_word(bits: Bits) -> Option<&'static str>
    ensures { option_map (λ word. word.now) result ≡ printed.fragment_word (bits_view bits) }
{
    match (bits.value, bits.mask) {
        (0, 3) => Some("no"),
        (1, 3) => Some("first"),
        (3, 3) => Some("later"),
        (1, 1) => Some("yes"),
        (0, 2) => Some("not_later"),
        _ => None,
    }
}

// A whole value.
fn print_whole(out: &mut String, form: PrintedForm, value: u128) -> Result<(), AllocError>
    requires { value < 2 ^ width_of_form (form_view form) }
    ensures { Adds out.old out.new (printed.value_text (form_view form) value) result }
{
    match form {
        PrintedForm::Decimal => print_decimal(out, value),
        PrintedForm::Hexadecimal | PrintedForm::Fragment => print_hexadecimal(out, value),
        PrintedForm::FourDigits => print_hexadecimal4(out, value as u16),
        PrintedForm::Mac => print_mac(out, value as u64),
        PrintedForm::Ipv4 => print_ipv4(out, value as u32),
        PrintedForm::Ipv6 => print_ipv6(out, value),
    }
}

// A value beside its mask.
fn print_masked(out: &mut String, form: PrintedForm, value: u128) -> Result<(), AllocError>
    requires { value < 2 ^ width_of_form (form_view form) }
    ensures { Adds out.old out.new (printed.masked_text (form_view form) value) result }
{
    match form {
        PrintedForm::Decimal => print_hexadecimal(out, value),
        _ => print_whole(out, form, value),
    }
}

fn print_mask(out: &mut String, form: PrintedForm, mask: u128) -> Result<(), AllocError>
    requires { mask < 2 ^ width_of_form (form_view form) }
    ensures { Adds out.old out.new (printed.mask_text (form_view form) mask) result }
{
    match form {
        PrintedForm::Ipv4 => print_ipv4_mask(out, mask as u32),
        PrintedForm::Ipv6 => print_ipv6_mask(out, mask),
        _ => print_masked(out, form, mask),
    }
}

// A value, and its mask where that isn't full.
fn print_value_and_mask(
    out: &mut String,
    form: PrintedForm,
    full: u128,
    bits: Bits,
) -> Result<(), AllocError>
    requires value { bits.value < 2 ^ width_of_form (form_view form) }
    requires mask { bits.mask < 2 ^ width_of_form (form_view form) }
    ensures { Adds out.old out.new
        (printed.value_and_mask (form_view form) full (bits_view bits)) result }
{
    if bits.mask == full {
        return print_whole(out, form, bits.value);
    }
    print_masked(out, form, bits.value)?;
    out.push('/')?;
    print_mask(out, form, bits.mask)
}

fn print_fragment(out: &mut String, full: u128, bits: Bits) -> Result<(), AllocError>
    requires value { bits.value < 2 ^ 128 }
    requires mask { bits.mask < 2 ^ 128 }
    ensures { Adds out.old out.new
        (printed.value_of_form (form_view PrintedForm.Fragment) full (bits_view bits)) result }
{
    match fragment_word(bits) {
        Some(word) => out.push_str(word),
        None => print_value_and_mask(out, PrintedForm::Fragment, full, bits),
    }
}

/// Adds a value of a named field, and its mask where that isn't full.
#[tactic(auto, unfolding(spec_flow_text::specs::Printed::value_in_text))]
pub fn print_value(out: &mut String, field: NamedField, bits: Bits) -> Result<(), AllocError>
    requires { Fits field bits }
    ensures { Adds out.old out.new (printed.value_in_text field (bits_view bits)) result }
{
    let full = bits_of(field);
    match printed_form(field) {
        PrintedForm::Fragment => print_fragment(out, full, bits),
        form => print_value_and_mask(out, form, full, bits),
    }
}

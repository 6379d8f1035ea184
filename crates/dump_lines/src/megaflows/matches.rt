ghost use Rattle.std.specs.Prelude.{◌≡◌, ◌++◌, ◌∷◌, false, IfOk, OnOk, OnErr, string_bytes};
ghost use Rattle.std.specs.List.{flat_map};
ghost use Rattle.spec_flow_text.specs.Printed as printed;
ghost use Rattle.spec_run.specs.Megaflows.{stated, megaflow_match_text};
ghost use Rattle.text_numbers.specs.Added.{Adds};
ghost use Rattle.field_text.specs.Views.{bits_view, FitsWidth};
ghost use Rattle.match_text.specs.Shown.{lead, items_text, begun_after};
ghost use Rattle.dump_lines.specs.Views.{match_of};

use field_text::{Bits, name_of, own_name, print_value, within_mask};
use ovs_fields::{FieldId, Key, Mask, all_fields};
use std::alloc::AllocError;
use text_numbers::print_word;

fn print_lead(out: &mut String, begun: bool) -> Result<(), AllocError>
    ensures { Adds out.old out.new (lead begun) result }
{
    if begun {
        return print_word(out, ",");
    }
    Ok(())
}

// Bits of a field, by its own name.
fn print_bits(out: &mut String, field: FieldId, bits: Bits) -> Result<(), AllocError>
    requires { FitsWidth field bits }
    ensures { Adds out.old out.new
        (printed.shown_text (printed.Value (printed.own_name field) (bits_view bits))) result }
{
    let name = own_name(field);
    print_word(out, name_of(name))?;
    print_word(out, "=")?;
    print_value(out, name, bits)
}

// Bits of a field, where there are any, behind a comma where others stand before them. What is answered is whether some do
// now.
fn print_stated(
    out: &mut String,
    begun: bool,
    field: FieldId,
    bits: Bits,
) -> Result<bool, AllocError>
    requires { FitsWidth field bits }
    ensures added { Adds out.old out.new
        (items_text begun (printed.shown_bits (printed.own_name field) (bits_view bits))) result }
    ensures begun { IfOk result (λ after.
        after ≡ begun_after begun (printed.shown_bits (printed.own_name field) (bits_view bits))) }
{
    if bits.mask == 0 {
        return Ok(begun);
    }
    print_lead(out, begun)?;
    print_bits(out, field, within_mask(bits))?;
    Ok(true)
}

// What a key and a mask state of a field.
fn bits_of(key: &Key, mask: &Mask, field: FieldId) -> Bits
    ensures bits { bits_view result ≡ printed.bits_of (match_of key.now mask.now) field }
    ensures fits { FitsWidth field result }
{
    Bits {
        value: key.get(field),
        mask: mask.get(field),
    }
}

// What a key and a mask state of fields, in their order.
fn print_fields(
    out: &mut String,
    key: &Key,
    mask: &Mask,
    fields: &[FieldId],
) -> Result<(), AllocError>
    ensures { let m = match_of key.now mask.now in
        Adds out.old out.new (items_text false (flat_map (stated m) fields.now)) result }
{
    let mut begun = false;
    'fields: for field in fields {
        begun = print_stated(out, begun, *field, bits_of(key, mask, *field))?;
    }
    Ok(())
}

/// Adds the match of a megaflow: each field of which a bit is stated, by its own name, in the order of the fields, with
/// commas between them.
pub fn print_megaflow_match(out: &mut String, key: &Key, mask: &Mask) -> Result<(), AllocError>
    ensures { Adds out.old out.new (megaflow_match_text (match_of key.now mask.now)) result }
{
    print_fields(out, key, mask, all_fields())
}

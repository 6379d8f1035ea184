//! Keys of packets.
ghost use Rattle.std.specs.Prelude.{◌≡◌};
ghost use Rattle.std.specs.List.{flat_map};
ghost use Rattle.spec_xlate.specs.Lookup.{added};
ghost use Rattle.text_numbers.specs.Added.{Adds};
ghost use Rattle.ovs_fields.specs.Packed.{numbers, bits};
ghost use Rattle.spec_tools.specs.TraceTexts.{carried_bits, carried, key_text};

use dump_lines::megaflows::print_megaflow_match;
use named_fields::low_bits;
use ovs_fields::{FieldId, Key, Mask, all_fields, width};
use std::alloc::AllocError;

// Adds all bits of a field of a key, if it isn't 0.
fn add_carried(mask: &mut Mask, key: &Key, field: FieldId)
    ensures { bits mask.new ≡ added (bits mask.old) (carried_bits (numbers key.now) field) }
{
    if key.get(field) == 0 {
        return;
    }
    mask.add(field, low_bits(width(field)));
}

// The same of fields.
fn add_all_carried(mask: &mut Mask, key: &Key, fields: &[FieldId])
    ensures { bits mask.new
        ≡ added (bits mask.old) (flat_map (carried_bits (numbers key.now)) fields.now) }
{
    'fields: for field in fields {
        add_carried(mask, key, *field);
    }
}

// All bits of each field of a key that isn't 0.
fn carried(key: &Key) -> Mask
    ensures { bits result ≡ carried (numbers key.now) }
{
    let mut mask = Mask::none();
    add_all_carried(&mut mask, key, all_fields());
    mask
}

/// Adds the fields of a key that aren't 0, by their own names.
pub(crate) fn print_key(out: &mut String, key: &Key) -> Result<(), AllocError>
    ensures { Adds out.old out.new (key_text (numbers key.now)) result }
{
    let mask = carried(key);
    print_megaflow_match(out, key, &mask)
}

ghost use Rattle.std.specs.Prelude.{◌≡◌, ◌+◌, ◌-◌, ◌^◌, ◌<◌, ◌≤◌, IsTrue};
ghost use Rattle.spec_base.specs.Bits.{all_bits};
ghost use Rattle.spec_keys.specs.Fields.{width_of};
ghost use Rattle.spec_actions.specs.Named.{named};
ghost use Rattle.spec_actions.specs.Sound.{is_sound_slice, fits_name};
ghost use Rattle.spec_xlate.specs.Translation.{in_field, slice_bits, slice_of, written, written_bits};
ghost use Rattle.ovs_fields.specs.Packed.{numbers};

use crate::names::named;
use crate::tags::set_tag;
use ovs_fields::{FieldId, Key};
use spec_actions::{NamedField, Slice};

/// The n least bits.
pub fn low_bits(n: u32) -> u128
    requires { n ≤ 128 }
    ensures { result ≡ all_bits n }
{
    if n == 128 { u128::MAX } else { (1 << n) - 1 }
}

/// The bits of its named field that a slice is.
pub fn slice_bits(slice: &Slice) -> u128
    requires { IsTrue (is_sound_slice slice.now) }
    ensures bits { result ≡ slice_bits slice.now }
    ensures within { IsTrue (fits_name slice.now.name result) }
{
    low_bits(slice.high + 1) - low_bits(slice.low)
}

/// The number that a slice of a key is: at most as wide as the slice.
pub fn read_slice(key: &Key, slice: &Slice) -> u128
    requires { IsTrue (is_sound_slice slice.now) }
    ensures value { result ≡ slice_of (numbers key.now) slice.now }
    ensures within { result < 2 ^ (slice.now.high - slice.now.low + 1) }
{
    let at = named(slice.name);
    (key.get(at.field) & (slice_bits(slice) << at.low)) >> (slice.low + at.low)
}

/// Replaces the bits of a mask in a field by those of a value. The other fields stay.
///
/// `vlan_tci` is that of the outer tag: where the write leaves it without bit 0x1000, that tag is taken away, and where there
/// was none, it is a customer's. A mask of 0 is no write.
pub fn write_field(key: &mut Key, field: FieldId, value: u128, mask: u128)
    requires { mask < 2 ^ width_of field }
    ensures { numbers key.new ≡ written field value mask (numbers key.old) }
{
    if mask == 0 {
        return;
    }
    let number = key.get(field);
    let merged = number ^ ((number ^ value) & mask);
    match field {
        FieldId::VlanTci => set_tag(key, merged as u16),
        _ => key.set(field, merged),
    }
}

/// Replaces the bits of a mask in a named field by those of a value, as far as a write may change them. The other
/// fields stay, and so does the rest of the field, but of `vlan_tci` as `write_field` has it.
///
/// Whether the packet is what a write needs is for the caller to ask.
pub fn write_bits(key: &mut Key, name: NamedField, value: u128, mask: u128)
    requires { IsTrue (fits_name name value) }
    ensures { numbers key.new ≡ written (named name).field (in_field name value) (written_bits name mask) (numbers key.old) }
{
    let at = named(name);
    write_field(
        key,
        at.field,
        value << at.low,
        (mask & at.writable) << at.low,
    );
}

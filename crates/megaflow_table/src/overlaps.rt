//! Which entries overlap one of a key and a mask.

ghost use Rattle.std.specs.Prelude.{◌≡◌, ◌++◌, IfOk, OnOk};
ghost use Rattle.std.specs.List.{flat_map};
ghost use Rattle.ovs_fields.specs.Packed.{numbers, bits};
ghost use Rattle.masked_map.specs.Maps.{mask_of};
ghost use Rattle.megaflow_table.specs.Subtables.{AreUnderMasks};
ghost use Rattle.megaflow_table.specs.Overlaps.{overlapping_in, HasDistinctMasks, IsScanned, AreScanned};

use crate::subtables::{Subtable, Subtables, number_in};
use masked_map::PacketKey;
use ovs_fields::{Mask, covers};
use std::alloc::{AllocError, Global};

/// The numbers of the entries that overlap one of this key and mask, subtable by subtable.
pub(crate) fn overlapping(
    alloc: Global,
    subtables: &Subtables,
    key: &PacketKey<'_>,
    mask: &Mask,
) -> Result<Vec<u32>, AllocError>
    requires { AreUnderMasks subtables.now }
    ensures found { IfOk result
        (λ v. v.items
        ≡ flat_map (overlapping_in (numbers key.now.key.now) (bits mask.now)) subtables.now.entries) }
    ensures masks { HasDistinctMasks subtables.now }
    ensures scanned { OnOk result (AreScanned (bits mask.now) subtables.now.entries) }
{
    let mut found = Vec::new(alloc);
    'subtables: for i in 0..subtables.len() {
        let Some((subtable_mask, subtable)) = subtables.get_index(i) else {
            unreachable!()
        };
        add_overlapping(&mut found, subtable_mask, subtable, key, mask)?;
    }
    Ok(found)
}

/// Adds the numbers of the entries of one subtable that overlap one of this key and mask.
///
/// Where this mask covers the subtable's, an entry overlaps exactly where it covers the key. At most one does, and a
/// probe finds it. Else each entry is tested.
fn add_overlapping(
    found: &mut Vec<u32>,
    subtable_mask: &Mask,
    subtable: &Subtable,
    key: &PacketKey<'_>,
    mask: &Mask,
) -> Result<(), AllocError>
    requires { mask_of subtable.now.numbers ≡ bits subtable_mask.now }
    ensures found { OnOk result
        (found.new.items
        ≡ found.old.items ++ overlapping_in (numbers key.now.key.now) (bits mask.now)
        (subtable_mask.now, subtable.now)) }
    ensures scanned { OnOk result (IsScanned (bits mask.now) (subtable_mask.now, subtable.now)) }
{
    if !covers(mask, subtable_mask) {
        return subtable.numbers.add_agreeing(found, key.key, mask);
    }
    if let Some(number) = number_in(subtable, key) {
        found.push(number)?;
    }
    Ok(())
}

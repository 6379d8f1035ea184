ghost use Rattle.std.specs.Prelude.{◌≡◌, false, IfSome, IsNone};
ghost use Rattle.spec_keys.specs.Keys.{are_zero};
ghost use Rattle.ovs_fields.specs.Packed.{bits};
ghost use Rattle.masked_map.specs.Compact.{list_of, wide_fields};
ghost use Rattle.masked_map.specs.Marks.{AreWordsOf};

use crate::compact_mask::CompactMask;
use crate::key_words::KeyWords;
use ovs_fields::Mask;

/// The mask of a map of compact keys.
#[derive(Clone, Copy)]
pub(crate) struct MapMask {
    pub(crate) bits: CompactMask,
    /// Its bits in words, under which the words of a key are those of the masked key.
    pub(crate) words: KeyWords,
    pub(crate) ghost worded: { AreWordsOf words (list_of bits.fields) },
}

impl MapMask {
    /// The bits of a mask, if the wide fields have none.
    pub(crate) fn of(mask: &Mask) -> Option<MapMask>
        ensures some { IfSome result (λ m. list_of m.bits.fields ≡ bits mask.now) }
        ensures none { IsNone result → are_zero wide_fields (bits mask.now) ≡ false }
    {
        let bits = CompactMask::of(mask)?;
        let words = KeyWords::of(&bits.fields);
        Some(MapMask { bits, words })
    }
}

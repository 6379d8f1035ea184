ghost use Rattle.std.specs.Prelude.{◌≡◌};
ghost use Rattle.spec_keys.specs.Keys.{joined};
ghost use Rattle.ovs_fields.specs.Packed.{bits};
ghost use Rattle.masked_map.specs.Compact.{list_of};

use crate::compact_mask::CompactMask;
use ovs_fields::{Mask, or};

/// The bits of several masks. Those of compact masks stand apart, in 40 bytes, until all bits are asked for.
///
/// Contracts see all of its bits as `union_of u`.
#[derive(Clone, Copy)]
pub struct MaskUnion {
    pub(crate) compact: CompactMask,
    /// The bits that were added otherwise.
    pub rest: Mask,
}

impl MaskUnion {
    ghost use Rattle.masked_map.specs.Unions.{union_of};

    /// The bits of one mask.
    pub fn of(mask: &Mask) -> MaskUnion
        ensures { union_of result ≡ bits mask.now }
    {
        MaskUnion {
            compact: CompactMask::none(),
            rest: *mask,
        }
    }

    /// All of the bits.
    pub fn mask(&self) -> Mask
        ensures { bits result ≡ union_of self.now }
    {
        let mut mask = self.rest;
        self.compact.add_to(&mut mask);
        mask
    }

    /// Adds the bits of a compact mask.
    #[inline]
    pub(crate) fn add_compact(&mut self, mask: &CompactMask)
        ensures { union_of self.new ≡ joined (union_of self.old) (list_of mask.now.fields) }
    {
        self.compact = self.compact.or(mask);
    }

    /// Adds the bits of any mask.
    pub(crate) fn add_whole(&mut self, mask: &Mask)
        ensures { union_of self.new ≡ joined (union_of self.old) (bits mask.now) }
    {
        self.rest = or(&self.rest, mask);
    }
}

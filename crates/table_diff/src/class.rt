ghost use Rattle.std.specs.Prelude.{◌≡◌};
ghost use Rattle.table_diff.specs.Deeds.{CanPrint};

use crate::cube::Cube;
use crate::deed::Deed;

/// Packets whose frames the old and the new tables treat differently.
#[derive(Drop)]
pub struct Class {
    /// Which packets they are.
    pub cube: Cube,
    /// What the old tables do to their frames.
    pub old: Deed,
    /// What the new tables do to them.
    pub new: Deed,
    pub ghost old_printable: { CanPrint old },
    pub ghost new_printable: { CanPrint new },
}

/// The class of these packets. It takes no memory.
pub(crate) fn class_of(cube: Cube, old: Deed, new: Deed) -> Class
    requires old { CanPrint old }
    requires new { CanPrint new }
    ensures cube { result.cube ≡ cube }
    ensures old { result.old ≡ old }
    ensures new { result.new ≡ new }
{
    Class { cube, old, new }
}

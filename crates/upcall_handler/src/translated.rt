ghost use Rattle.std.specs.Prelude.{◌≡◌};
ghost use Rattle.ovs_fields.specs.Packed.{numbers};

use pmd_board::Xlated;
use run_case::{Case, Keyed};

/// A frame with a translation of its key, on its way to the frame's board.
#[derive(Drop)]
pub struct Translated<C: Case> {
    pub at: Keyed<C>,
    pub made: Xlated<C>,
    pub ghost key_is: { made.key ≡ numbers at.key },
}

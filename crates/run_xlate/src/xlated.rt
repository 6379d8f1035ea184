ghost use Rattle.std.specs.Prelude.{◌≡◌};
ghost use Rattle.ovs_fields.specs.Packed.{numbers, bits};
ghost use Rattle.spec_board.specs.Results.{switch_at, translated, mask_for};
ghost use Rattle.pipe_model.specs.Plains.{translation_in};
ghost use Rattle.pipe_model.specs.Xlates.{IsWildcardSound};
ghost use Rattle.run_xlate.specs.Views.{xlate_of};

use dp_actions::{ActionList, Visits};
use ovs_fields::{Key, Mask};
use pipe_model::{Plain, Translated};
use run_case::Case;
use std::marker::{Model, PhantomData};

/// What the tables of a version of a run make of a packet, and the bits of its key that decide it.
///
/// Its type keeps that both are those of its key and its version.
#[derive(Drop)]
pub struct Xlated<C: Case> {
    made: Translated,
    of: PhantomData<C>,
}

impl<C: Case> Model for Xlated<C> {
    ghost use Rattle.run_xlate.specs.Views.{XlateView};

    ghost Value = { XlateView };

    ghost use Rattle.run_xlate.specs.Fields.{view_of, IsXlated};

    ghost view = { view_of };

    ghost invariant = { IsXlated C.run };
}

impl<C: Case> Xlated<C> {
    /// A translation that is the run's. It takes no memory.
    pub fn new(made: Translated) -> Xlated<C>
        requires translation { made.translation ≡ translated C.run made.version made.key }
        requires mask { made.mask ≡ mask_for C.run made.version made.key }
        ensures { result ≡ record { key = made.key; version = made.version } }
    {
        Xlated {
            made,
            of: PhantomData,
        }
    }

    /// The packet's key.
    pub fn key(&self) -> &Key
        ensures { numbers result.now ≡ self.now.key }
    {
        self.made.key()
    }

    /// The version of the tables, which is how many bundles of the run stand before it.
    pub fn version(&self) -> u32
        ensures { result ≡ self.now.version }
    {
        self.made.version()
    }

    /// What is done to the frame, in order.
    pub fn actions(&self) -> &ActionList
        ensures { result.now ≡ (translated C.run self.now.version self.now.key).actions }
    {
        self.made.actions()
    }

    /// The rules visited, in order, each as often as it was.
    pub fn visits(&self) -> &Visits
        ensures { result.now ≡ (translated C.run self.now.version self.now.key).visits }
    {
        self.made.visits()
    }

    /// The bits of the key that were consulted. Where this key is clean, every clean key that agrees with it on them is
    /// translated alike.
    pub fn mask(&self) -> &Mask
        ensures mask { bits result.now ≡ mask_for C.run self.now.version self.now.key }
        ensures sound { IsWildcardSound (switch_at C.run self.now.version) (xlate_of C.run self.now) }
    {
        let _ = self.made.key();
        self.made.mask()
    }

    /// Both lists, and the mask. It takes no memory.
    pub fn into_parts(self) -> (Plain, Mask)
        ensures translation { translation_in result.0 ≡ translated C.run self.version self.key }
        ensures mask { bits result.1 ≡ mask_for C.run self.version self.key }
    {
        self.made.into_parts()
    }
}

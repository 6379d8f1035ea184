ghost use Rattle.std.specs.Prelude.{◌≡◌};
ghost use Rattle.ovs_fields.specs.Packed.{numbers, bits};

use crate::lists::Plain;
use dp_actions::{ActionList, Visits};
use ovs_fields::{Key, Mask};
use std::marker::Model;

/// What the tables of a version make of a packet, and the bits of its key that decide it.
#[derive(Drop)]
pub struct Translated {
    key: Key,
    version: u32,
    made: Plain,
    mask: Mask,
}

impl Model for Translated {
    ghost use Rattle.spec_keys.specs.Keys.{IsKey};
    ghost use Rattle.ovs_fields.specs.Packed.{numbers, bits};
    ghost use Rattle.pipe_model.specs.Plains.{translation_in};
    ghost use Rattle.pipe_model.specs.Xlates.{Xlate};

    ghost Value = { Xlate };

    ghost view = { λ x. record { key = numbers x.key; version = x.version; translation = translation_in x.made; mask = bits x.mask } };

    ghost invariant = { λ x. IsKey (numbers x.key) };
}

impl Translated {
    ghost use Rattle.spec_keys.specs.Keys.{IsKey};
    ghost use Rattle.pipe_model.specs.Plains.{translation_in};

    /// It takes no memory.
    pub fn new(key: Key, version: u32, made: Plain, mask: Mask) -> Translated
        ensures { result ≡ record { key = numbers key; version = version; translation = translation_in made; mask = bits mask } }
    {
        Translated {
            key,
            version,
            made,
            mask,
        }
    }

    /// The packet's key.
    pub fn key(&self) -> &Key
        ensures key { numbers result.now ≡ self.now.key }
        ensures is_key { IsKey self.now.key }
    {
        &self.key
    }

    /// The version of the tables.
    pub fn version(&self) -> u32
        ensures { result ≡ self.now.version }
    {
        self.version
    }

    /// What is done to the frame, in order.
    pub fn actions(&self) -> &ActionList
        ensures { result.now ≡ self.now.translation.actions }
    {
        &self.made.actions
    }

    /// The rules visited, in order, each as often as it was.
    pub fn visits(&self) -> &Visits
        ensures { result.now ≡ self.now.translation.visits }
    {
        &self.made.visits
    }

    /// The bits of the key that were consulted.
    pub fn mask(&self) -> &Mask
        ensures { bits result.now ≡ self.now.mask }
    {
        &self.mask
    }

    /// Both lists, and the mask. It takes no memory.
    pub fn into_parts(self) -> (Plain, Mask)
        ensures translation { translation_in result.0 ≡ self.translation }
        ensures mask { bits result.1 ≡ self.mask }
    {
        (self.made, self.mask)
    }
}

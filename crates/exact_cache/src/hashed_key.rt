ghost use Rattle.std.specs.Prelude.{◌≡◌};
ghost use Rattle.spec_keys.specs.Hash.{key_hash};
ghost use Rattle.ovs_fields.specs.Packed.{numbers};

use ovs_fields::{Key, key_hash};

/// A key with its hash, so that whoever looks it up and then puts it hashes it once.
#[derive(Clone, Copy)]
pub struct HashedKey<'a> {
    pub key: &'a Key,
    pub(crate) hash: u64,
    pub(crate) ghost hashed: { hash ≡ key_hash (numbers key.now) },
}

impl<'a> HashedKey<'a> {
    /// Hashes a key.
    pub fn of(key: &'a Key) -> HashedKey<'a>
        ensures { result.key.now ≡ key.now }
    {
        HashedKey {
            key,
            hash: key_hash(key),
        }
    }
}

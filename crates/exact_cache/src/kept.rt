ghost use Rattle.std.specs.Prelude.{◌≡◌, IfSome, true};
ghost use Rattle.spec_keys.specs.Keys.{same};
ghost use Rattle.spec_keys.specs.Hash.{key_hash};
ghost use Rattle.ovs_fields.specs.Packed.{numbers};

use crate::hashed_key::HashedKey;
use ovs_fields::Key;

/// What a slot keeps: a key, and the number of the entry that decided it last.
#[derive(Clone, Copy)]
pub(crate) struct Kept {
    /// The number of the slot.
    pub(crate) slot: u32,
    pub(crate) entry: u32,
    /// Where the entry was seen, as whoever put it tells.
    pub(crate) seen: usize,
    /// The hash of the key. It stands before the key, so that most keys of other frames needn't be read.
    pub(crate) hash: u64,
    pub(crate) key: Key,
    pub(crate) ghost hashed: { hash ≡ key_hash (numbers key) },
}

impl Kept {
    /// Whether it keeps this key.
    pub(crate) fn is_of(&self, key: HashedKey<'_>) -> bool
        ensures { result ≡ same (numbers self.now.key) (numbers key.entry.key.now) }
    {
        self.hash == key.hash && self.key == *key.key
    }

    /// A key with the hash that is kept, where it is the key that is kept.
    pub(crate) fn hashed<'a>(&self, key: &'a Key) -> Option<HashedKey<'a>>
        ensures key { IfSome result (λ hashed. hashed.key.now ≡ key.now) }
        ensures kept { IfSome result (λ _. same (numbers self.now.key) (numbers key.now) ≡ true) }
    {
        if self.key == *key {
            Some(HashedKey {
                key,
                hash: self.hash,
            })
        } else {
            None
        }
    }
}

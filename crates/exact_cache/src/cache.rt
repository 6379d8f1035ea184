ghost use Rattle.std.specs.Prelude.{◌≡◌, [], IfOk};
ghost use Rattle.spec_board.specs.Cache.{cached, with_cached};
ghost use Rattle.ovs_fields.specs.Packed.{numbers};
ghost use Rattle.exact_cache.specs.SameSlots.{AreSameSlots};

use crate::exact_look::{ExactLook, look_at, look_by_hash};
use crate::hashed_key::HashedKey;
use crate::hints::Hints;
use crate::kept::Kept;
use crate::slots::{KeptSlots, empty_slots, slot_for, write};
use ovs_fields::Key;
use std::alloc::{AllocError, Global};
use std::marker::Model;

/// Keys, each with the number of the entry that decided it last.
#[derive(Drop)]
pub struct ExactCache {
    slots: KeptSlots,
    hints: Hints,
}

impl Model for ExactCache {
    ghost use Rattle.std.specs.Prelude.{List};
    ghost use Rattle.spec_board.specs.State.{Slot};

    ghost Value = { List Slot };

    ghost use Rattle.exact_cache.specs.Kept.{slots_view, IsCache};

    ghost view = { λ cache. slots_view cache.slots };

    ghost invariant = { λ cache. IsCache cache.slots };
}

impl ExactCache {
    /// A cache with no key, and with all the memory that it will ever take. The only error is out of memory.
    pub fn new(alloc: Global) -> Result<ExactCache, AllocError>
        ensures { IfOk result (λ cache. cache ≡ []) }
    {
        let slots = empty_slots(alloc)?;
        let hints = Hints::new(alloc)?;
        Ok(ExactCache { slots, hints })
    }

    /// A key with its hash, and the entry that the cache names for it. That entry may be live no more, which the caller
    /// tests. The key isn't hashed where the cache keeps it at the place that its hint tells.
    pub fn look<'a>(&self, key: &'a Key) -> ExactLook<'a>
        ensures key { result.key.key.now ≡ key.now }
        ensures entry { result.entry ≡ cached self.now (numbers key.now) }
    {
        if let Some(place) = self.hints.place_for(key) {
            if let Some(found) = look_at(&self.slots, place, key) {
                return found;
            }
        }
        look_by_hash(&self.slots, HashedKey::of(key))
    }

    /// Names an entry for a key, in place of the one that it named; another key may be forgotten for it. Where the entry
    /// was seen is told to whoever looks the key up. It takes no memory.
    pub fn put(&mut self, key: HashedKey<'_>, entry: u32, seen: usize)
        ensures { AreSameSlots self.new (with_cached (numbers key.entry.key.now) entry self.old) }
    {
        let kept = Kept {
            slot: slot_for(&self.slots, key),
            entry,
            seen,
            hash: key.hash,
            key: *key.key,
        };
        let place = write(&mut self.slots, kept);
        self.hints.tell(key.key, place);
    }
}

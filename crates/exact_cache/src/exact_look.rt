//! Looks for a key among the slots.

ghost use Rattle.std.specs.Prelude.{◌≡◌, IfSome};
ghost use Rattle.spec_board.specs.Cache.{cached};
ghost use Rattle.ovs_fields.specs.Packed.{numbers};
ghost use Rattle.exact_cache.specs.Kept.{slots_view, IsCache};

use crate::hashed_key::HashedKey;
use crate::slots::{KeptSlots, entry_for, first_slot, second_slot};
use ovs_fields::Key;

/// A key that was looked up: with its hash, and the entry that the cache names for it.
#[derive(Clone, Copy)]
pub struct ExactLook<'a> {
    pub key: HashedKey<'a>,
    pub entry: Option<u32>,
    /// Where the entry was seen as the key was put, or 0. It only saves time: nothing rests on it.
    pub seen: usize,
}

/// What a look for a key answers, where this key is kept at a place. If that is its first slot, the key is compared no
/// more.
pub(crate) fn look_at<'a>(slots: &KeptSlots, place: usize, key: &'a Key) -> Option<ExactLook<'a>>
    requires { IsCache slots.now }
    ensures key { IfSome result (λ look. look.key.key.now ≡ key.now) }
    ensures entry { IfSome result
        (λ look. look.entry ≡ cached (slots_view slots.now) (numbers key.now)) }
{
    let kept = slots.kept.get(place)?;
    let key = kept.hashed(key)?;
    if kept.slot != first_slot(key.hash) {
        return Some(look_by_hash(slots, key));
    }
    Some(ExactLook {
        key,
        entry: Some(kept.entry),
        seen: kept.seen,
    })
}

/// What a look for a key answers, by the two slots that its hash tells.
pub(crate) fn look_by_hash<'a>(slots: &KeptSlots, key: HashedKey<'a>) -> ExactLook<'a>
    requires { IsCache slots.now }
    ensures key { result.key.key.now ≡ key.entry.key.now }
    ensures entry { result.entry ≡ cached (slots_view slots.now) (numbers key.entry.key.now) }
{
    let entry = match entry_for(slots, first_slot(key.hash), key) {
        Some(entry) => Some(entry),
        None => entry_for(slots, second_slot(key.hash), key),
    };
    ExactLook {
        key,
        entry,
        seen: 0,
    }
}

//! How many rules have each key.

ghost use Rattle.std.specs.Prelude.{◌≡◌, ◌<◌, ◌+◌, ◌^◌, ℕ, List, if◌then◌else◌};
ghost use Rattle.spec_keys.specs.Keys.{masked};
ghost use Rattle.ovs_fields.specs.Packed.{numbers};
ghost use Rattle.masked_map.specs.Maps.{mask_of, room_of};
ghost use Rattle.staged_lookup.specs.Counts.{count_at, is_key_in};

use masked_map::{MaskedMap, PacketKey};
use ovs_fields::Key;

/// How many rules have each key under a mask, and no entry for those that none has.
pub(crate) type KeyCounts = MaskedMap<usize>;

/// Counts a key under the mask once more, for which there is room.
pub(crate) fn add_count(counts: &mut KeyCounts, key: &Key)
    requires room { 0 < room_of counts.old }
    requires small { count_at counts.old (masked (numbers key.now) (mask_of counts.old)) < 2 ^ 63 }
    ensures mask { mask_of counts.new ≡ mask_of counts.old }
    ensures counts { (q : List ℕ)
        → count_at counts.new q
        ≡ count_at counts.old q
        + (if is_key_in counts.old (numbers key.now) q then 1 else 0) }
{
    let count = count_of(counts, key);
    counts.insert(key, count + 1);
}

/// Counts a key under the mask that was counted once less.
pub(crate) fn take_count(counts: &mut KeyCounts, key: &Key)
    requires { 0 < count_at counts.old (masked (numbers key.now) (mask_of counts.old)) }
    ensures mask { mask_of counts.new ≡ mask_of counts.old }
    ensures counts { (q : List ℕ)
        → count_at counts.new q
        + (if is_key_in counts.old (numbers key.now) q then 1 else 0)
        ≡ count_at counts.old q }
{
    let count = count_of(counts, key);
    if count > 1 {
        counts.insert(key, count - 1);
    } else {
        counts.swap_remove(key);
    }
}

/// How often a key under the mask was counted.
fn count_of(counts: &KeyCounts, key: &Key) -> usize
    ensures { result ≡ count_at counts.now (masked (numbers key.now) (mask_of counts.now)) }
{
    count_of_packet(counts, &PacketKey::new(key))
}

/// How often the key of a packet under the mask was counted.
#[inline]
pub(crate) fn count_of_packet(counts: &KeyCounts, key: &PacketKey<'_>) -> usize
    ensures { result ≡ count_at counts.now (masked (numbers key.now.key.now) (mask_of counts.now)) }
{
    counts.get(key).copied().unwrap_or(0)
}

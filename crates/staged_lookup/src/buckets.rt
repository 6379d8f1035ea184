//! The ranks of the rules of one mask, by their keys.

ghost use Rattle.std.specs.Prelude.{◌≡◌, ◌++◌, [], ◌∷◌, List, ℕ, OnOk, OnErr, if◌then◌else◌, filter};
ghost use Rattle.spec_keys.specs.Keys.{masked};
ghost use Rattle.ovs_fields.specs.Packed.{numbers};
ghost use Rattle.masked_map.specs.Maps.{mask_of};
ghost use Rattle.staged_lookup.specs.Counts.{ranks_at, is_key_in};
ghost use Rattle.staged_lookup.specs.Ranks.{is_other};

use crate::bucket::Bucket;
use crate::rank::Rank;
use masked_map::MaskedMap;
use ovs_fields::Key;
use std::alloc::{AllocError, Global};

/// The ranks of the rules with each key under the mask: they differ in their priority alone. A key without rules has no entry.
pub(crate) type Buckets = MaskedMap<Bucket>;

/// Adds a rank at a key under the mask. The only error is out of memory, and then the ranks stay.
pub(crate) fn add_rank(
    alloc: Global,
    buckets: &mut Buckets,
    key: &Key,
    rank: Rank,
) -> Result<(), AllocError>
    ensures mask { mask_of buckets.new ≡ mask_of buckets.old }
    ensures ok { OnOk result
        ((q : List ℕ) → ranks_at buckets.new q
        ≡ ranks_at buckets.old q
        ++ (if is_key_in buckets.old (numbers key.now) q then rank ∷ [] else [])) }
    ensures err { OnErr result ((q : List ℕ) → ranks_at buckets.new q ≡ ranks_at buckets.old q) }
{
    buckets.reserve()?;
    match buckets.swap_remove(key) {
        Some(mut bucket) => {
            let added = bucket.push(alloc, rank);
            buckets.insert(key, bucket);
            added
        }
        None => {
            buckets.insert(key, Bucket::One(rank));
            Ok(())
        }
    }
}

/// Takes the rank of a number out of those at a key under the mask, which has some.
pub(crate) fn take_rank(buckets: &mut Buckets, key: &Key, number: u32)
    requires { ranks_at buckets.old (masked (numbers key.now) (mask_of buckets.old)) ≡ [] → ⊥ }
    ensures mask { mask_of buckets.new ≡ mask_of buckets.old }
    ensures ranks { (q : List ℕ) → ranks_at buckets.new q
        ≡ (if is_key_in buckets.old (numbers key.now) q then filter (is_other number)
        (ranks_at buckets.old q) else ranks_at buckets.old q) }
{
    // Something stands at the key meanwhile, so that what is left needs no memory to stand there again.
    let meanwhile = Bucket::One(Rank {
        priority: 0,
        number,
    });
    let Some(bucket) = buckets.insert(key, meanwhile) else {
        unreachable!()
    };
    match bucket.without(number) {
        Some(left) => {
            buckets.insert(key, left);
        }
        None => {
            buckets.swap_remove(key);
        }
    }
}

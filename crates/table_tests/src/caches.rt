use exact_cache::{ExactCache, HashedKey};
use ovs_fields::{FieldId, Key};
use std::process::Abort;

/// More keys than a cache has slots.
const MANY: u32 = 20_000;

/// A key with this IPv4 source address.
fn from_address(address: u32) -> Key {
    let mut key = Key::zero();
    key.set(FieldId::NwSrc, u128::from(address));
    key
}

/// Asserts which entry a cache names for a key.
fn expect_entry(rt: &impl Abort, cache: &ExactCache, key: &Key, entry: Option<u32>) {
    assert_eq!(rt; cache.look(key).entry, entry);
}

#[test]
fn a_key_is_named_the_entry_that_was_put_last(rt: HostRuntime) {
    let mut cache = ExactCache::new(rt.alloc()).expect(&rt, "ample memory");
    let key = from_address(0x0a00_0001);
    let other = from_address(0x0a00_0002);
    expect_entry(&rt, &cache, &key, None);
    let missed = cache.look(&key);
    cache.put(missed.key, 1, 0);
    expect_entry(&rt, &cache, &key, Some(1));
    let hit = cache.look(&key);
    cache.put(hit.key, 2, 0);
    expect_entry(&rt, &cache, &key, Some(2));
    expect_entry(&rt, &cache, &other, None);
    drop(cache);
}

#[test]
fn keys_that_share_a_hint_keep_their_own_entries(rt: HostRuntime) {
    let mut cache = ExactCache::new(rt.alloc()).expect(&rt, "ample memory");
    let key = from_address(0x0a00_0001);
    let other = from_address(0x0a00_0ed0);
    cache.put(HashedKey::of(&key), 1, 0);
    cache.put(HashedKey::of(&other), 2, 0);
    expect_entry(&rt, &cache, &key, Some(1));
    expect_entry(&rt, &cache, &other, Some(2));
    drop(cache);
}

#[test]
fn a_full_cache_takes_more_keys(rt: HostRuntime) {
    let mut cache = ExactCache::new(rt.alloc()).expect(&rt, "ample memory");
    for address in 0..MANY {
        let key = from_address(address);
        cache.put(HashedKey::of(&key), address, 0);
        expect_entry(&rt, &cache, &key, Some(address));
    }
    drop(cache);
}

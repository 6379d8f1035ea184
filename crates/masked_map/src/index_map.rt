//! What is done with maps from keys of either kind.

ghost use Rattle.std.specs.Prelude.{◌≡◌, ◌<◌, None, Some};
ghost use Rattle.std.specs.Option.{option_copied};
ghost use Rattle.indexmap.specs.IndexMap.{get, index_map_len, spare, Updates};

use indexmap::IndexMap;
use std::hash::Hash;

/// The value of a key. Where it is the only one nothing is hashed.
pub(crate) fn value_of<'a, K: Eq + Hash, V>(map: &'a IndexMap<K, V>, key: &K) -> Option<&'a V>
    ensures { option_copied result ≡ get K.eq map.now key.now }
{
    if map.len() == 1 {
        return only_value(map, key);
    }
    map.get(key)
}

/// The value of a key in a map of one.
fn only_value<'a, K: Eq + Hash, V>(map: &'a IndexMap<K, V>, key: &K) -> Option<&'a V>
    requires { index_map_len map.now ≡ 1 }
    ensures { option_copied result ≡ get K.eq map.now key.now }
{
    match map.get_index(0) {
        Some((only, value)) => { if *key == *only { Some(value) } else { None } }
        None => unreachable!(),
    }
}

/// Gives a key a value. The key is there, or there is room for it.
pub(crate) fn put<K: Eq + Hash + Drop, V: Drop>(
    map: &mut IndexMap<K, V>,
    key: K,
    value: V,
) -> Option<V>
    requires { get K.eq map.old key ≡ None → 0 < spare map.old }
    ensures old { result ≡ get K.eq map.old key }
    ensures updates { Updates K.eq map.old map.new key (Some value) }
{
    let Ok(old) = map.insert(key, value) else {
        unreachable!()
    };
    old
}

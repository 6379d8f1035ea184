ghost use Rattle.std.specs.Prelude.{◌≡◌, ◌≤◌, ◌<◌, ◌^◌, ℕ, List, length};
ghost use Rattle.spec_xlate.specs.Lookup.{Prefix};
ghost use Rattle.address_prefixes.specs.Looks.{IsFound, Adds, AllApart};
ghost use Rattle.address_prefixes.specs.Prefixes.{in_common};
ghost use Rattle.address_prefixes.specs.Tries.{prefixes_in, own_prefixes, IsTrie};

use crate::tracker::common::in_common;
use crate::tracker::found::Found;
use crate::tracker::trie::{Node, Trie};

/// What the prefixes of a trie tell of a number.
pub(crate) fn look_in(width: u32, trie: &Trie, value: u128) -> Found
    requires wide { width ≤ 128 }
    requires fits { value < 2 ^ width }
    requires sound { IsTrie width trie.now }
    ensures { IsFound width value result (prefixes_in width trie.now) }
{
    let mut found = Found {
        lengths: 0,
        bits: 0,
    };
    let mut below = trie;
    'nodes: while let Trie::Fork(node) = below {
        let node: &Node = node;
        let common = in_common(width, node.bits, value);
        if common < node.length {
            return with_apart(found, common);
        }
        let own = with_own(found, node.length, node.count);
        if common == node.length {
            found = with_other_side(own, node.length, &node.like);
            below = &node.unlike;
        } else {
            found = with_other_side(own, node.length, &node.unlike);
            below = &node.like;
        }
    }
    found
}

/// With what a prefix of some length tells of a number that begins with it, if it stands there.
fn with_own(found: Found, length: u32, count: u32) -> Found
    requires wide { length ≤ 128 }
    requires some { 0 < count → 0 < length }
    ensures { (width value bits : ℕ)
        → length ≤ width → width ≤ 128 → length ≤ in_common width bits value
        → Adds width value found result (own_prefixes width bits length count) }
{
    if count == 0 {
        return found;
    }
    Found {
        lengths: found.lengths | 1 << (length - 1),
        bits: found.bits.max(length),
    }
}

/// With what those longer ones tell that go on otherwise than a number that begins with the prefix does.
fn with_other_side(found: Found, length: u32, side: &Trie) -> Found
    requires { length ≤ 128 }
    ensures { (width value : ℕ)
        → IsTrie width side.now → AllApart width value length (prefixes_in width side.now)
        → Adds width value found result (prefixes_in width side.now) }
{
    match side {
        Trie::Empty => found,
        Trie::Fork(_) => with_apart(found, length),
    }
}

/// With what prefixes tell of a number that has as many leading bits in common with each of them, and no more.
fn with_apart(found: Found, common: u32) -> Found
    requires { common ≤ 128 }
    ensures { (width value : ℕ) (ps : List Prefix)
        → AllApart width value common ps → 0 < length ps → Adds width value found result ps }
{
    Found {
        lengths: found.lengths,
        bits: found.bits.max(common + 1),
    }
}

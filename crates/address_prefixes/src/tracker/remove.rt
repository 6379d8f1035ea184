ghost use Rattle.std.specs.Prelude.{◌≡◌, ◌≤◌, ◌<◌, ◌^◌, ℕ, length, IsTrue, IsFalse};
ghost use Rattle.address_prefixes.specs.declared.tracker.trie.Trie.TheVariants.{Empty};
ghost use Rattle.address_prefixes.specs.Prefixes.{prefix_at, times, HasOneMore};
ghost use Rattle.address_prefixes.specs.Tries.{prefixes_in, IsTrie, IsNearlyTrie, HasJust};

use crate::tracker::common::in_common;
use crate::tracker::trie::Trie;
use std::mem;

/// Takes a prefix out once, which is there.
pub(crate) fn remove_in(width: u32, trie: &mut Trie, value: u128, len: u32)
    requires wide { width ≤ 128 }
    requires fits { value < 2 ^ width }
    requires there { 0 < times (prefix_at width value len) (prefixes_in width trie.old) }
    requires sound { IsTrie width trie.old }
    ensures sound { IsTrie width trie.new }
    ensures less { HasOneMore (prefix_at width value len) (prefixes_in width trie.new)
        (prefixes_in width trie.old) }
{
    match trie {
        Trie::Empty => {}
        Trie::Fork(node) => {
            if len == node.length {
                node.count -= 1;
            } else if in_common(width, node.bits, value) == node.length {
                remove_in(width, &mut node.unlike, value, len);
            } else {
                remove_in(width, &mut node.like, value, len);
            }
            drop_needless(trie);
        }
    }
}

/// Puts the one side of a node in its place, where its own prefix doesn't stand there and the other side is empty.
fn drop_needless(trie: &mut Trie)
    ensures { (width : ℕ) → IsNearlyTrie width trie.old
        → HasJust width trie.new (prefixes_in width trie.old) }
{
    if let Trie::Fork(node) = trie {
        if node.count == 0 {
            if is_empty(&node.like) {
                let side = mem::replace(&mut node.unlike, Trie::Empty);
                *trie = side;
            } else if is_empty(&node.unlike) {
                let side = mem::replace(&mut node.like, Trie::Empty);
                *trie = side;
            }
        }
    }
}

fn is_empty(trie: &Trie) -> bool
    ensures empty { IsTrue result → trie.now ≡ Empty }
    ensures not_empty { IsFalse result
        → (width : ℕ) → IsTrie width trie.now → 0 < length (prefixes_in width trie.now) }
{
    match trie {
        Trie::Empty => true,
        Trie::Fork(_) => false,
    }
}

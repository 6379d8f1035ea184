ghost use Rattle.std.specs.Prelude.{◌≡◌, ◌≤◌, ◌<◌, ◌+◌, ◌^◌, ℕ, length, OnOk, OnErr, IfOk};
ghost use Rattle.address_prefixes.specs.Prefixes.{prefix_at, HasOneMore};
ghost use Rattle.address_prefixes.specs.Tries.{prefixes_in, node_prefixes, IsTrie, IsNode, HasJust, with_like};
ghost use Rattle.address_prefixes.specs.declared.tracker.trie.Node.{Node};
ghost use Rattle.address_prefixes.specs.declared.tracker.trie.Trie.TheVariants.{Empty, Fork};

use crate::tracker::common::in_common;
use crate::tracker::trie::{Node, Trie};
use std::alloc::{AllocError, Global};
use std::mem;

/// Adds a prefix once. The only error is out of memory, and then the prefixes stay.
pub(crate) fn insert_in(
    alloc: Global,
    width: u32,
    trie: &mut Trie,
    value: u128,
    len: u32,
) -> Result<(), AllocError>
    requires wide { width ≤ 128 }
    requires fits { value < 2 ^ width }
    requires some { 0 < len }
    requires within { len ≤ width }
    requires few { length (prefixes_in width trie.old) + 1 < 2 ^ 32 }
    requires sound { IsTrie width trie.old }
    ensures sound { IsTrie width trie.new }
    ensures ok { OnOk result
        (HasOneMore (prefix_at width value len) (prefixes_in width trie.old) (prefixes_in width trie.new)) }
    ensures err { OnErr result (prefixes_in width trie.new ≡ prefixes_in width trie.old) }
{
    match trie {
        Trie::Empty => {
            *trie = Trie::Fork(leaf(alloc, value, len)?);
            Ok(())
        }
        Trie::Fork(node) => {
            let common = in_common(width, node.bits, value);
            if common < node.length && common < len {
                // They part before either ends: a node above both.
                let other = leaf(alloc, value, len)?;
                let above = branch(alloc, node.bits, common, 0, Trie::Fork(other))?;
                put_above(trie, above);
                Ok(())
            } else if len < node.length {
                // It ends on the way to the node's: a node of its own above that.
                let above = branch(alloc, node.bits, len, 1, Trie::Empty)?;
                put_above(trie, above);
                Ok(())
            } else if len == node.length {
                node.count += 1;
                Ok(())
            } else if common == node.length {
                insert_in(alloc, width, &mut node.unlike, value, len)
            } else {
                insert_in(alloc, width, &mut node.like, value, len)
            }
        }
    }
}

/// A node whose prefix stands there once, with none below it.
fn leaf(alloc: Global, bits: u128, length: u32) -> Result<Box<Node>, AllocError>
    ensures { IfOk result (λ b. b.value
        ≡ record { bits = bits; length = length; count = 1; like = Empty; unlike = Empty }) }
{
    branch(alloc, bits, length, 1, Trie::Empty)
}

/// A node with nothing on the side of its number yet.
fn branch(
    alloc: Global,
    bits: u128,
    length: u32,
    count: u32,
    unlike: Trie,
) -> Result<Box<Node>, AllocError>
    ensures { IfOk result (λ b. b.value
        ≡ record { bits = bits; length = length; count = count; like = Empty; unlike = unlike }) }
{
    let node = Box::new(
        alloc,
        Node {
            bits,
            length,
            count,
            like: Trie::Empty,
            unlike,
        },
    )?;
    Ok(node)
}

/// Puts a node above a trie, which comes to stand on the side of the node's number.
fn put_above(trie: &mut Trie, mut above: Box<Node>)
    ensures { (width : ℕ) (n : Node)
        → n ≡ with_like trie.old above.value → IsNode width n
        → IsTrie width trie.old → IsTrie width above.value.unlike
        → HasJust width trie.new (node_prefixes width n) }
{
    above.like = mem::replace(trie, Trie::Empty);
    *trie = Trie::Fork(above);
}

//! The order in which lookups go over the subtables of a table: by falling greatest priority. It has their places in the
//! map of masks.

ghost use Rattle.std.specs.Prelude.{◌≡◌, ◌<◌, ◌≤◌, ◌+◌, ℕ, ◌==◌, if◌then◌else◌, List, length, slice_get, swap_remove, Some, IsTrue, IsFalse, vec_len, vec_capacity};
ghost use Rattle.indexmap.specs.IndexMap.{values, index_map_len};
ghost use Rattle.tuple_classifier.specs.Numbers.{times};
ghost use Rattle.tuple_classifier.specs.Order.{IsFallingAlong, IsFallingBut, Settles, IsNotBelowAt, IsNotAboveAt, BelongsBehind, BelongsBefore};
ghost use Rattle.tuple_classifier.specs.Placed.{IsOrderOf, AreWithin};
ghost use Rattle.tuple_classifier.specs.declared.subtable.Subtable.{Subtable};

use crate::subtable::ByMask;

/// Moves a subtable to where it belongs, where the others stand in order and its greatest priority may not be what it was.
/// It takes no memory.
pub(crate) fn settle(by_mask: &ByMask, order: &mut Vec<u32>, place: usize, before: Option<u16>)
    requires order { IsOrderOf (index_map_len by_mask.now) order.old.items }
    requires within { place < index_map_len by_mask.now }
    ensures order { IsOrderOf (index_map_len by_mask.now) order.new.items }
    ensures falling { Settles place before (values by_mask.now) order.old.items order.new.items }
{
    if by_mask[place].indexes.greatest() == before {
        return;
    }
    let moved = order.remove(position_of(order, place));
    enter(by_mask, order, moved);
}

/// Puts the place of a subtable, which the order doesn't have and has room for, where it belongs.
pub(crate) fn enter(by_mask: &ByMask, order: &mut Vec<u32>, place: u32)
    requires places { AreWithin (index_map_len by_mask.now) order.old.items }
    requires within { place < index_map_len by_mask.now }
    requires room { vec_len order.old < vec_capacity order.old }
    ensures places { (p : ℕ)
        → times p order.new.items ≡ times p order.old.items + (if place == p then 1 else 0) }
    ensures falling { IsFallingAlong (values by_mask.now) order.old.items
        → IsFallingAlong (values by_mask.now) order.new.items }
{
    let index = index_for(by_mask, order, place as usize);
    let Ok(()) = order.insert(index, place) else {
        unreachable!()
    };
}

/// Takes the place of a subtable out, and has the last one take its place, as the map does. It takes no memory.
pub(crate) fn leave(order: &mut Vec<u32>, place: usize, last: usize)
    requires order { IsOrderOf (last + 1) order.old.items }
    requires within { place ≤ last }
    ensures order { IsOrderOf last order.new.items }
    ensures falling { (ss : List Subtable) (d : Subtable) → length ss ≡ last + 1
        → IsFallingBut place ss order.old.items
        → IsFallingAlong (swap_remove ss place d) order.new.items }
{
    let freed = order.remove(position_of(order, place));
    if place < last {
        let index = position_of(order, last);
        order[index] = freed;
    }
}

/// Where in the order a subtable belongs: before the first that has no priority as great as its greatest.
fn index_for(by_mask: &ByMask, order: &[u32], place: usize) -> usize
    requires places { AreWithin (index_map_len by_mask.now) order.now }
    requires within { place < index_map_len by_mask.now }
    ensures bound { result ≤ length order.now }
    ensures before { IsFallingAlong (values by_mask.now) order.now
        → BelongsBehind result (values by_mask.now) order.now place }
    ensures behind { IsFallingAlong (values by_mask.now) order.now
        → BelongsBefore result (values by_mask.now) order.now place }
{
    let mut low = 0;
    let mut high = order.len();
    'halves: while low < high {
        let middle = low + (high - low) / 2;
        if is_above(by_mask, place, order[middle] as usize) {
            high = middle;
        } else {
            low = middle + 1;
        }
    }
    low
}

/// Whether the subtable at one place has a greater priority than that at another.
fn is_above(by_mask: &ByMask, place: usize, other: usize) -> bool
    requires within { place < index_map_len by_mask.now }
    requires other_within { other < index_map_len by_mask.now }
    ensures above { IsTrue result → IsNotBelowAt (values by_mask.now) place other }
    ensures not_above { IsFalse result → IsNotAboveAt (values by_mask.now) place other }
{
    by_mask[place].indexes.is_above(&by_mask[other].indexes)
}

/// Where in the order a place stands, which it has.
fn position_of(order: &[u32], place: usize) -> usize
    requires { 0 < times place order.now }
    ensures { slice_get order.now result ≡ Some place }
{
    'places: for i in 0..order.len() {
        if order[i] as usize == place {
            return i;
        }
    }
    unreachable!()
}

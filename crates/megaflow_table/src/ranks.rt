//! The order of the subtables, by falling number of hits.

ghost use Rattle.std.specs.Prelude.{◌≡◌, ◌<◌, ◌≤◌, ℕ, Some, None, IfSome, length, slice_get, slice_index};
ghost use Rattle.std.specs.Map.{values_of};
ghost use Rattle.std.specs.Option.{option_map};
ghost use Rattle.ovs_fields.specs.Packed.{bits};
ghost use Rattle.megaflow_table.specs.Order.{HasEachOnce, CountsHit};
ghost use Rattle.megaflow_table.specs.Subtables.{order_of, subtable_of, IsRanked, KeepsNumbers};

use crate::subtables::Subtables;
use ovs_fields::Mask;

/// The mask at a place of the order, and its number of hits.
pub(crate) fn rank_at(subtables: &Subtables, place: usize) -> Option<(Mask, u64)>
    ensures place { option_map (λ r. (bits r.0, r.1)) result
        ≡ slice_get (order_of subtables.now) place }
    ensures once { HasEachOnce (order_of subtables.now) }
{
    let _ = subtables.len();
    let (mask, subtable) = subtables.get_index(place)?;
    Some((*mask, subtable.hits))
}

/// The hits of the subtable at a place.
fn hits_at(subtables: &Subtables, place: usize) -> u64
    requires { place < length subtables.now.entries }
    ensures { result ≡ slice_index (values_of (order_of subtables.now)) place }
{
    let Some((_, subtable)) = subtables.get_index(place) else {
        unreachable!()
    };
    subtable.hits
}

/// The first place with as many hits as this one.
fn first_equal(subtables: &Subtables, place: usize) -> usize
    requires within { place < length subtables.now.entries }
    requires ranked { IsRanked subtables.now }
    ensures at_most { result ≤ place }
    ensures before { (k : ℕ) → k < result → slice_index (values_of (order_of subtables.now)) place
        < slice_index (values_of (order_of subtables.now)) k }
    ensures equal { slice_index (values_of (order_of subtables.now)) result
        ≡ slice_index (values_of (order_of subtables.now)) place }
{
    let hits = hits_at(subtables, place);
    if place == 0 || hits_at(subtables, place - 1) > hits {
        return place;
    }
    subtables.partition_point(|_, subtable| subtable.hits > hits)
}

/// The place of a mask's subtable, which was last seen at a place. Where it is still there, it takes no hash.
fn place_of(subtables: &Subtables, mask: &Mask, seen: usize) -> Option<usize>
    ensures within { IfSome result (λ place. place < length subtables.now.entries) }
    ensures mask { IfSome result
        (λ place. option_map (λ r. r.0) (slice_get (order_of subtables.now) place)
        ≡ Some (bits mask.now)) }
    ensures none { result ≡ None → subtable_of subtables.now (bits mask.now) ≡ None }
{
    match subtables.get_index(seen) {
        Some((there, _)) if there == mask => Some(seen),
        _ => subtables.get_index_of(mask),
    }
}

/// One more hit of a mask, whose subtable was last seen at a place. It moves before the first one that has fewer then, and
/// its place then is the answer. It takes no memory.
pub(crate) fn count_hit(subtables: &mut Subtables, mask: &Mask, seen: usize) -> usize
    requires was_ranked { IsRanked subtables.old }
    ensures keeps { KeepsNumbers subtables.old subtables.new }
    ensures order { CountsHit (bits mask.now) (order_of subtables.old) (order_of subtables.new) }
    ensures ranked { IsRanked subtables.new }
{
    let Some(place) = place_of(subtables, mask, seen) else {
        return seen;
    };
    let first = first_equal(subtables, place);
    let (_, subtable) = subtables.pair_mut(place);
    subtable.hits = subtable.hits.saturating_add(1);
    if first < place {
        subtables.swap_indices(first, place);
    }
    first
}

//! Entries, each with where its subtable was seen, and where an entry itself stands.

ghost use Rattle.std.specs.Prelude.{◌≡◌, ◌<◌, nat_eq, Some, None, slice_get, IfSome};
ghost use Rattle.indexmap.specs.IndexMap.{get, index_map_len};
ghost use Rattle.megaflow_table.specs.declared.placed.Placed.{Placed};

use crate::entry::Entry;
use indexmap::IndexMap;

/// A live entry, and the place where the subtable of its mask was seen last.
#[derive(Drop)]
pub(crate) struct Placed {
    pub(crate) entry: Entry,
    pub(crate) place: usize,
}

/// The place of an entry that was seen at a place. Where it is still there, it takes no hash.
pub(crate) fn place_of(entries: &IndexMap<u32, Placed>, number: u32, seen: usize) -> Option<usize>
    ensures within { IfSome result (λ place. place < index_map_len entries.now) }
    ensures there { IfSome result
        (λ place. (p : Placed) × (slice_get entries.now.entries place ≡ Some (number, p))) }
    ensures none { result ≡ None → get nat_eq entries.now number ≡ None }
{
    match entries.get_index(seen) {
        Some((there, _)) if *there == number => Some(seen),
        _ => entries.get_index_of(&number),
    }
}

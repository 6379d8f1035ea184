//! Lists of actions, which entries and decided frames name by their place.

ghost use Rattle.std.specs.Prelude.{◌≡◌, ◌<◌, ◌≤◌, ◌+◌, [], ◌∷◌, ◌++◌, true, length, slice_set, vec_len, vec_capacity, OnOk};
ghost use Rattle.port_caches.specs.Lists.{actions_at, room_in, most_lists, IsListFor};

use dp_actions::ActionList;
use std::alloc::{AllocError, Global};
use std::mem;

/// How many lists there may be: an entry names its list by 32 bits.
const MOST_LISTS: usize = 1 << 32;

/// A list of actions, and whether a decided frame names it: then it stays as it is.
#[derive(Drop)]
pub struct HeldList {
    pub actions: ActionList,
    pub held: bool,
}

/// Makes room for so many more lists. Where it fails the lists stay, and the room is no less.
pub(crate) fn reserve_lists(lists: &mut Vec<HeldList>, more: usize) -> Result<(), AllocError>
    requires { vec_len lists.old ≤ most_lists }
    ensures items { lists.new.items ≡ lists.old.items }
    ensures len { vec_len lists.new ≡ vec_len lists.old }
    ensures room { room_in lists.old ≤ room_in lists.new }
    ensures ok { OnOk result (more ≤ room_in lists.new) }
{
    if more > MOST_LISTS - lists.len() {
        return Err(AllocError);
    }
    lists.reserve(more)
}

/// Adds a list, and answers its place. There is room for it.
pub(crate) fn push_list(lists: &mut Vec<HeldList>, actions: ActionList, held: bool) -> usize
    requires { 1 ≤ room_in lists.old }
    ensures place { result ≡ length lists.old.items }
    ensures items { lists.new.items
        ≡ lists.old.items ++ (record { actions = actions; held = held }) ∷ [] }
    ensures len { vec_len lists.new ≡ vec_len lists.old + 1 }
    ensures capacity { vec_capacity lists.new ≡ vec_capacity lists.old }
{
    let place = lists.len();
    lists.push_reserved(HeldList { actions, held });
    place
}

/// A decided frame names a list from now on.
pub(crate) fn hold(lists: &mut Vec<HeldList>, list: usize)
    requires { list < length lists.old.items }
    ensures items { lists.new.items
        ≡ slice_set lists.old.items list
        (record { actions = actions_at lists.old.items list; held = true }) }
    ensures len { vec_len lists.new ≡ vec_len lists.old }
    ensures capacity { vec_capacity lists.new ≡ vec_capacity lists.old }
{
    lists[list].held = true;
}

/// A list that was written: its place, and actions that no list has any more, whose memory can be used again.
pub(crate) struct WrittenList {
    pub(crate) place: usize,
    pub(crate) spare: ActionList,
}

/// The place of a list with these actions that no decided frame names: an entry's own list is written over, unless a
/// decided frame names it; then a list is added, and nothing is left over.
pub(crate) fn list_for(
    alloc: Global,
    lists: &mut Vec<HeldList>,
    own: usize,
    actions: ActionList,
) -> WrittenList
    requires own { own < length lists.old.items }
    requires room { 1 ≤ room_in lists.old }
    ensures list { IsListFor own actions lists.old.items result.place lists.new.items }
    ensures few { vec_len lists.old ≤ most_lists → vec_len lists.new ≤ most_lists }
    ensures within { result.place < most_lists }
    ensures room { room_in lists.old ≤ room_in lists.new + 1 }
{
    if lists[own].held {
        return WrittenList {
            place: push_list(lists, actions, false),
            spare: ActionList::new(Vec::new(alloc)),
        };
    }
    WrittenList {
        place: own,
        spare: mem::replace(&mut lists[own].actions, actions),
    }
}

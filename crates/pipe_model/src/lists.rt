ghost use Rattle.std.specs.Prelude.{◌≡◌, []};

use dp_actions::{ActionList, Visits};
use std::alloc::Global;

/// What the flow tables make of a packet.
#[derive(Drop)]
pub struct Plain {
    /// What is done to the frame, in order.
    pub actions: ActionList,
    /// The rules visited, in order.
    pub visits: Visits,
}

impl Plain {
    /// The memory of both lists, for another translation.
    pub fn into_spare(self) -> SpareLists {
        SpareLists::of(self.actions, self.visits)
    }
}

/// Empty lists, in whose memory a translation is made.
#[derive(Drop)]
pub struct SpareLists {
    pub(crate) actions: ActionList,
    pub(crate) visits: Vec<u32>,
    ghost no_actions: { actions ≡ [] },
    ghost no_visits: { visits.items ≡ [] },
}

impl SpareLists {
    /// Lists without memory; what they take later is of `alloc`.
    pub fn new(alloc: Global) -> SpareLists {
        SpareLists {
            actions: ActionList::new(Vec::new(alloc)),
            visits: Vec::new(alloc),
        }
    }

    /// The memory of lists that nothing names any more. What they hold is dropped.
    pub fn of(mut actions: ActionList, visits: Visits) -> SpareLists {
        actions.truncate(0);
        let mut visits = visits.into_vec();
        visits.clear();
        SpareLists { actions, visits }
    }
}

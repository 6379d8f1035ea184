//! What puts do, and what entries owe and rules are credited with around them.
use crate::calls::{Call, Done};
use crate::flows::{
    DELETE_EQUAL_PORT_1, DELETE_HIGH_TO_9, EQUAL_PORT_1, EQUAL_TO_2, HIGH_TO_9, LOW_TO_9,
    LOW_TO_ANY, PORT_1, PORT_1_TO_2,
};
use crate::rows::{AMPLE, NO_FRAMES, ONE_FRAME, Row, THREE_FRAMES, TWO_FRAMES, are_as_shown};
use pmd_board::{Looked, PutDone};
use std::test::Fail;

const ROWS: [Row; 5] = [
    Row {
        shows: "a put that keeps an entry pays what it owes",
        flows: &[PORT_1, LOW_TO_9],
        sync: None,
        frames: &[(1, 2), (2, 2), (3, 2), (4, 2)],
        flow_limit: AMPLE,
        calls: &[
            Call::Look(1, Ok(Looked::Miss)),
            Call::Settle(1, 1, Ok(Done::Installed(1, None))),
            Call::Entry(1, NO_FRAMES, NO_FRAMES),
            Call::Total(1, ONE_FRAME),
            Call::Look(2, Ok(Looked::Mega(1))),
            Call::Look(3, Ok(Looked::Exact(1))),
            Call::Entry(1, TWO_FRAMES, TWO_FRAMES),
            Call::Total(1, ONE_FRAME),
            Call::Begin(2, Ok(())),
            Call::Put(1, 2, Ok(PutDone::Kept)),
            Call::Entry(1, TWO_FRAMES, NO_FRAMES),
            Call::Total(1, THREE_FRAMES),
            Call::Total(2, NO_FRAMES),
            Call::End(Ok(())),
            Call::Look(4, Ok(Looked::Exact(1))),
            Call::Entry(1, THREE_FRAMES, ONE_FRAME),
            Call::Total(1, THREE_FRAMES),
        ],
    },
    Row {
        shows: "a put that replaces pays the old rules, and the next one the new rules",
        flows: &[EQUAL_PORT_1, EQUAL_TO_2, DELETE_EQUAL_PORT_1],
        sync: None,
        frames: &[(1, 2), (2, 2), (3, 2)],
        flow_limit: AMPLE,
        calls: &[
            Call::Look(1, Ok(Looked::Miss)),
            Call::Settle(1, 2, Ok(Done::Installed(1, None))),
            Call::Look(2, Ok(Looked::Mega(1))),
            Call::Begin(3, Ok(())),
            Call::Put(1, 3, Ok(PutDone::Replaced)),
            Call::Entry(1, ONE_FRAME, NO_FRAMES),
            Call::Total(1, TWO_FRAMES),
            Call::Total(2, NO_FRAMES),
            Call::End(Ok(())),
            Call::Look(3, Ok(Looked::Exact(1))),
            Call::Begin(3, Ok(())),
            Call::Put(1, 3, Ok(PutDone::Kept)),
            Call::Entry(1, TWO_FRAMES, NO_FRAMES),
            Call::Total(1, TWO_FRAMES),
            Call::Total(2, ONE_FRAME),
        ],
    },
    Row {
        shows: "a put removes an entry whose mask lacks a bit, and pays what it owed",
        flows: &[LOW_TO_ANY, HIGH_TO_9],
        sync: None,
        frames: &[(1, 2), (2, 2), (3, 2)],
        flow_limit: AMPLE,
        calls: &[
            Call::Look(1, Ok(Looked::Miss)),
            Call::Settle(1, 1, Ok(Done::Installed(1, None))),
            Call::Look(2, Ok(Looked::Mega(1))),
            Call::Begin(2, Ok(())),
            Call::Put(1, 2, Ok(PutDone::Removed)),
            Call::NoEntry(1),
            Call::Total(1, TWO_FRAMES),
            Call::End(Ok(())),
            Call::Look(3, Ok(Looked::Miss)),
            Call::Settle(3, 2, Ok(Done::Installed(2, None))),
            Call::Entry(2, NO_FRAMES, NO_FRAMES),
            Call::Total(1, THREE_FRAMES),
        ],
    },
    Row {
        shows: "a put drops an entry that wasn't used for ten seconds, pays what it owed, and keeps a newer one",
        flows: &[PORT_1_TO_2],
        sync: None,
        frames: &[(1, 2), (2, 2), (3, 6), (12, 7)],
        flow_limit: AMPLE,
        calls: &[
            Call::Look(1, Ok(Looked::Miss)),
            Call::Settle(1, 1, Ok(Done::Installed(1, None))),
            Call::Look(2, Ok(Looked::Mega(1))),
            Call::Look(3, Ok(Looked::Miss)),
            Call::Settle(3, 1, Ok(Done::Installed(2, None))),
            Call::Look(4, Ok(Looked::Miss)),
            Call::Begin(1, Ok(())),
            Call::Put(1, 1, Ok(PutDone::Idle)),
            Call::NoEntry(1),
            Call::Total(1, TWO_FRAMES),
            Call::Put(2, 1, Ok(PutDone::Kept)),
            Call::Entry(2, NO_FRAMES, NO_FRAMES),
            Call::End(Ok(())),
        ],
    },
    Row {
        shows: "a settle drops the entry that the new one overlaps, and pays what it owed",
        flows: &[LOW_TO_ANY, HIGH_TO_9, DELETE_HIGH_TO_9],
        sync: None,
        frames: &[(1, 2), (2, 2), (3, 6), (4, 2)],
        flow_limit: AMPLE,
        calls: &[
            Call::Look(1, Ok(Looked::Miss)),
            Call::Settle(1, 2, Ok(Done::Installed(1, None))),
            Call::Look(2, Ok(Looked::Mega(1))),
            Call::Look(3, Ok(Looked::Miss)),
            Call::Settle(3, 3, Ok(Done::Installed(2, Some(1)))),
            Call::NoEntry(1),
            Call::Total(1, THREE_FRAMES),
            Call::Look(4, Ok(Looked::Mega(2))),
        ],
    },
];

#[test]
fn entries_owe_what_they_decided_until_they_are_put_or_dropped(
    rt: HostRuntime,
) -> Result<(), Fail> {
    are_as_shown(&rt, rt.alloc(), &ROWS)
}

//! In which order the masks of a board's megaflows are probed.
use crate::calls::{Call, Done};
use crate::flows::{HIGH_TO_9, LOW_FROM_1};
use crate::rows::{AMPLE, ONE_FRAME, Row, THREE_FRAMES, are_as_shown};
use pmd_board::Looked;
use std::test::Fail;

const ROWS: [Row; 1] = [Row {
    shows: "the mask of the younger entry comes first with its hits, and both entries are as in any other order",
    flows: &[HIGH_TO_9, LOW_FROM_1],
    sync: None,
    frames: &[(1, 9), (2, 6), (3, 6), (4, 6), (5, 6), (6, 9)],
    flow_limit: AMPLE,
    calls: &[
        Call::Look(1, Ok(Looked::Miss)),
        Call::Settle(1, 2, Ok(Done::Installed(1, None))),
        Call::Look(2, Ok(Looked::Miss)),
        Call::Settle(2, 2, Ok(Done::Installed(2, None))),
        Call::Rank(0, Some((1, 0))),
        Call::Rank(1, Some((2, 0))),
        Call::Look(3, Ok(Looked::Mega(2))),
        Call::Look(4, Ok(Looked::Exact(2))),
        Call::Look(5, Ok(Looked::Exact(2))),
        Call::Look(6, Ok(Looked::Mega(1))),
        Call::Entry(1, ONE_FRAME, ONE_FRAME),
        Call::Entry(2, THREE_FRAMES, THREE_FRAMES),
        Call::After(0, Some(1)),
        Call::Rank(0, Some((2, 3))),
        Call::Rank(1, Some((1, 1))),
        Call::Rank(2, None),
    ],
}];

#[test]
fn masks_are_probed_by_their_hits(rt: HostRuntime) -> Result<(), Fail> {
    are_as_shown(&rt, rt.alloc(), &ROWS)
}

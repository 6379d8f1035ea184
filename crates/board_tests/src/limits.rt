//! How many megaflows a board has, and which frames get one.
use crate::calls::{Call, Done};
use crate::flows::PORT_1_TO_2;
use crate::rows::{AMPLE, Row, TWO_FRAMES, are_as_shown};
use pmd_board::Looked;
use std::test::Fail;

const FRAMES: [(u8, u8); 3] = [(1, 2), (2, 6), (3, 6)];

const ROWS: [Row; 4] = [
    Row {
        shows: "a board with a limit of 0 never has a megaflow",
        flows: &[PORT_1_TO_2],
        sync: None,
        frames: &FRAMES,
        flow_limit: 0,
        calls: &[
            Call::Begin(1, Ok(())),
            Call::End(Ok(())),
            Call::Look(1, Ok(Looked::Miss)),
            Call::Settle(1, 1, Ok(Done::Full)),
            Call::Look(2, Ok(Looked::Miss)),
            Call::Settle(2, 1, Ok(Done::Full)),
            Call::Look(3, Ok(Looked::Miss)),
            Call::Settle(3, 1, Ok(Done::Full)),
        ],
    },
    Row {
        shows: "a limit of 1 has no room for a second megaflow",
        flows: &[PORT_1_TO_2],
        sync: None,
        frames: &FRAMES,
        flow_limit: 1,
        calls: &[
            Call::Begin(1, Ok(())),
            Call::End(Ok(())),
            Call::Look(1, Ok(Looked::Miss)),
            Call::Settle(1, 1, Ok(Done::Installed(1, None))),
            Call::Look(2, Ok(Looked::Miss)),
            Call::Settle(2, 1, Ok(Done::Full)),
            Call::Look(3, Ok(Looked::Miss)),
            Call::Settle(3, 1, Ok(Done::Full)),
        ],
    },
    Row {
        shows: "a limit of 2 has room for a second megaflow, which the next frame hits",
        flows: &[PORT_1_TO_2],
        sync: None,
        frames: &FRAMES,
        flow_limit: 2,
        calls: &[
            Call::Begin(1, Ok(())),
            Call::End(Ok(())),
            Call::Look(1, Ok(Looked::Miss)),
            Call::Settle(1, 1, Ok(Done::Installed(1, None))),
            Call::Look(2, Ok(Looked::Miss)),
            Call::Settle(2, 1, Ok(Done::Installed(2, None))),
            Call::Look(3, Ok(Looked::Mega(2))),
        ],
    },
    Row {
        shows: "of two equal frames that both missed the second finds the megaflow of the first",
        flows: &[PORT_1_TO_2],
        sync: None,
        frames: &[(1, 2), (2, 2)],
        flow_limit: AMPLE,
        calls: &[
            Call::Look(1, Ok(Looked::Miss)),
            Call::Look(2, Ok(Looked::Miss)),
            Call::Settle(1, 1, Ok(Done::Installed(1, None))),
            Call::Settle(2, 1, Ok(Done::Present(1))),
            Call::Total(1, TWO_FRAMES),
        ],
    },
];

#[test]
fn a_settle_installs_what_is_missing_below_the_flow_limit(rt: HostRuntime) -> Result<(), Fail> {
    are_as_shown(&rt, rt.alloc(), &ROWS)
}

//! Polls of a block that has more frames than a batch.
use crate::acts::Act;
use crate::runs::{Row, are_as_shown};
use crate::stage::Told;
use rx_worker::Polled;
use std::test::Fail;

const ROWS: [Row<'static>; 1] = [Row {
    shows: "of 40 frames 32 are looked up and then 8, and what the queue has no room for is refused",
    edits: b"",
    frames: &[2; 40],
    published: 0,
    room: 35,
    acts: &[
        Act::Poll(Polled {
            looked: 32,
            given: 32,
            refused: 0,
        }),
        Act::Poll(Polled {
            looked: 8,
            given: 3,
            refused: 5,
        }),
        Act::Poll(Polled {
            looked: 0,
            given: 0,
            refused: 0,
        }),
        Act::Queued(35),
        Act::Points(Told {
            batches: 3,
            upcalls: 0,
            checks: 0,
        }),
    ],
}];

#[test]
fn a_block_is_polled_by_batches(rt: HostRuntime) -> Result<(), Fail> {
    are_as_shown(&rt, rt.alloc(), &ROWS)
}

//! How a sweep ends.
use crate::acts::{Act, Call, FIRST, SECOND, SETTLED};
use crate::runs::{Row, are_as_shown};
use crate::stage::Told;
use revalidator::Swept;
use rx_worker::Polled;
use std::test::Fail;

const ROWS: [Row<'static>; 3] = [
    Row {
        shows: "a sweep puts each megaflow, and none is made while another runs",
        edits: b"in_port=1,dl_dst=00:00:00:00:00:02,actions=2",
        frames: &[2, 6],
        published: 1,
        room: 8,
        acts: &[
            Act::Sweep(Swept::Done { version: 1 }),
            Act::Call(Call::Done(1)),
            Act::Poll(Polled {
                looked: 2,
                given: 2,
                refused: 0,
            }),
            Act::Handle(&[FIRST], SETTLED),
            Act::Handle(&[SECOND], SETTLED),
            Act::Sweep(Swept::Done { version: 1 }),
            Act::Points(Told {
                batches: 1,
                upcalls: 2,
                checks: 2,
            }),
            Act::Call(Call::Begin(1, Ok(()))),
            Act::Sweep(Swept::Busy { floor: 1 }),
            Act::Points(Told {
                batches: 1,
                upcalls: 2,
                checks: 2,
            }),
        ],
    },
    Row {
        shows: "no sweep begins at a version that the block doesn't allow yet",
        edits: b"sync 5\nin_port=1,actions=2",
        frames: &[2],
        published: 1,
        room: 8,
        acts: &[Act::Sweep(Swept::Beyond { hi: 0 })],
    },
    Row {
        shows: "a sweep that another ended is told, and so are entries that a newer sweep has yet to put",
        edits: b"in_port=1,actions=2",
        frames: &[2],
        published: 0,
        room: 8,
        acts: &[
            Act::Poll(Polled {
                looked: 1,
                given: 1,
                refused: 0,
            }),
            Act::Handle(&[FIRST], SETTLED),
            Act::SweepBeside(None, Swept::Other),
            Act::SweepBeside(Some(1), Swept::Left { n: 1 }),
            Act::Call(Call::Done(0)),
            Act::Sweep(Swept::Busy { floor: 1 }),
        ],
    },
];

#[test]
fn boards_are_swept(rt: HostRuntime) -> Result<(), Fail> {
    are_as_shown(&rt, rt.alloc(), &ROWS)
}

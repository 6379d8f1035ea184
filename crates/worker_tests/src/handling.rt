//! How the handling of upcalls ends.
use crate::acts::{Act, Call, FIRST, SECOND, SETTLED, Settle, USELESS};
use crate::runs::{Row, are_as_shown};
use crate::stage::Told;
use rx_worker::Polled;
use std::test::Fail;
use upcall_handler::Handled;
use upcall_queue::upcalls::Upcall;

/// One frame is looked up, and its upcall is taken.
const ONE_MISS: Act<'static> = Act::Poll(Polled {
    looked: 1,
    given: 1,
    refused: 0,
});

/// Two are.
const TWO_MISSES: Act<'static> = Act::Poll(Polled {
    looked: 2,
    given: 2,
    refused: 0,
});

/// In how many tries a frame is translated and the gate told of it.
const TRIES: u64 = 4;

const ROWS: [Row<'static>; 4] = [
    Row {
        shows: "a pending frame is decided, once, and the gate is told between translation and settle",
        edits: b"in_port=1,actions=2",
        frames: &[2],
        published: 1,
        room: 8,
        acts: &[
            Act::Handle(&[FIRST], USELESS),
            ONE_MISS,
            Act::Call(Call::Decided(1, false)),
            Act::Handle(&[FIRST], SETTLED),
            Act::Call(Call::Decided(1, true)),
            Act::Handle(&[FIRST], USELESS),
            Act::Points(Told {
                batches: 1,
                upcalls: 3,
                checks: 0,
            }),
            Act::Handle(&[Upcall { port: 1, place: 0 }], USELESS),
            Act::Handle(&[SECOND], USELESS),
            Act::Handle(&[Upcall { port: 2, place: 1 }], USELESS),
            Act::Points(Told {
                batches: 1,
                upcalls: 3,
                checks: 0,
            }),
        ],
    },
    Row {
        shows: "of upcalls that are handled together each frame is decided, and what the run hasn't is passed over",
        edits: b"in_port=1,actions=2",
        frames: &[2, 6],
        published: 1,
        room: 8,
        acts: &[
            TWO_MISSES,
            Act::Handle(
                &[Upcall { port: 1, place: 9 }, SECOND, FIRST, SECOND],
                Handled {
                    settled: 2,
                    gone: 2,
                    left: 0,
                    floor: 0,
                    beyond: 0,
                    hi: 0,
                },
            ),
            Act::Call(Call::Settles(&[
                Settle {
                    place: 2,
                    version: 1,
                },
                Settle {
                    place: 1,
                    version: 1,
                },
            ])),
            Act::Points(Told {
                batches: 1,
                upcalls: 3,
                checks: 0,
            }),
        ],
    },
    Row {
        shows: "a frame is left after so many tries where a sweep of a version began that isn't published",
        edits: b"in_port=1,actions=2",
        frames: &[2, 6],
        published: 0,
        room: 8,
        acts: &[
            TWO_MISSES,
            Act::Call(Call::Begin(1, Ok(()))),
            Act::Call(Call::End(Ok(()))),
            Act::Handle(
                &[FIRST, SECOND],
                Handled {
                    settled: 0,
                    gone: 0,
                    left: 2,
                    floor: 1,
                    beyond: 0,
                    hi: 0,
                },
            ),
            Act::Call(Call::Settles(&[])),
            Act::Points(Told {
                batches: 1,
                upcalls: 2 * TRIES,
                checks: 0,
            }),
        ],
    },
    Row {
        shows: "a frame isn't settled under a version that its block doesn't allow yet",
        edits: b"sync 5\nin_port=1,actions=2",
        frames: &[2],
        published: 1,
        room: 8,
        acts: &[
            ONE_MISS,
            Act::Handle(
                &[FIRST],
                Handled {
                    settled: 0,
                    gone: 0,
                    left: 0,
                    floor: 0,
                    beyond: 1,
                    hi: 0,
                },
            ),
            Act::Call(Call::Settles(&[])),
        ],
    },
];

#[test]
fn upcalls_are_handled(rt: HostRuntime) -> Result<(), Fail> {
    are_as_shown(&rt, rt.alloc(), &ROWS)
}

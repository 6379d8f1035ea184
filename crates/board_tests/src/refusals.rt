//! What refuses the calls of a board, with the numbers that a refusal carries.
use crate::calls::{Call, Done};
use crate::flows::{DELETE_EQUAL_PORT_1, EQUAL_PORT_1, EQUAL_TO_2, PORT_1};
use crate::rows::{AMPLE, Row, are_as_shown};
use pmd_board::{
    BeginFault, EndFault, LookFault, Looked, OpenFault, PutDone, PutFault, SettleFault,
};
use std::test::Fail;

const ROWS: [Row; 2] = [
    Row {
        shows: "a new board refuses what is out of turn, and a sweep another sweep and entries that it doesn't list",
        flows: &[PORT_1],
        sync: None,
        frames: &[(1, 2), (2, 2)],
        flow_limit: AMPLE,
        calls: &[
            Call::Look(2, Err(LookFault::OutOfTurn { next: 1 })),
            Call::Settle(1, 1, Err(SettleFault::NotPending)),
            Call::Begin(5, Err(BeginFault::Ahead { hi: 1 })),
            Call::End(Err(EndFault::NotSweeping)),
            Call::Open(1, Err(OpenFault::Order { block: 0, last: 0 })),
            Call::Begin(1, Ok(())),
            Call::Begin(1, Err(BeginFault::Sweeping { floor: 1 })),
            Call::Look(1, Ok(Looked::Miss)),
            Call::Settle(1, 0, Err(SettleFault::Stale { floor: 1 })),
            Call::Settle(1, 1, Ok(Done::Installed(1, None))),
            Call::Put(1, 1, Err(PutFault::NotListed)),
            Call::Put(2, 1, Err(PutFault::NotListed)),
            Call::End(Ok(())),
        ],
    },
    Row {
        shows: "a block is opened when all is done in the one before it",
        flows: &[EQUAL_PORT_1, EQUAL_TO_2, DELETE_EQUAL_PORT_1],
        sync: Some((2, 2)),
        frames: &[(1, 2), (2, 2)],
        flow_limit: AMPLE,
        calls: &[
            Call::Open(1, Err(OpenFault::LooksLeft { next: 1 })),
            Call::Look(1, Ok(Looked::Miss)),
            Call::Open(1, Err(OpenFault::Pending(1))),
            Call::Settle(1, 3, Err(SettleFault::Ahead { hi: 2 })),
            Call::Settle(1, 2, Ok(Done::Installed(1, None))),
            Call::Open(1, Err(OpenFault::Unswept { done: 0, lo: 2 })),
            Call::Look(2, Err(LookFault::OtherBlock { block: 0 })),
            Call::Begin(2, Ok(())),
            Call::End(Err(EndFault::Left(1))),
            Call::Put(1, 1, Err(PutFault::Stale { floor: 2 })),
            Call::Put(1, 3, Err(PutFault::Ahead { hi: 2 })),
            Call::Put(1, 2, Ok(PutDone::Kept)),
            Call::End(Ok(())),
            Call::Open(1, Ok(())),
            Call::Look(2, Ok(Looked::Mega(1))),
            Call::Begin(3, Ok(())),
        ],
    },
];

#[test]
fn what_is_not_legal_is_refused_with_its_cause(rt: HostRuntime) -> Result<(), Fail> {
    are_as_shown(&rt, rt.alloc(), &ROWS)
}

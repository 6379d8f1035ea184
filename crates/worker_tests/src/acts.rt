//! Acts on a board behind its lock, and what they are to answer.
use crate::literal_run::PORT;
use crate::meddling::swept_beside;
use crate::stage::{Points, SmallQueue, Stage, Told};
use pmd_board::{BeginFault, Board, EndFault, Step};
use revalidator::{Swept, sweep_board};
use run_case::{Case, RunData};
use rx_worker::{Polled, poll_batch};
use std::alloc::{AllocError, Global};
use std::sync::{Mutex, Wait};
use table_publish::Seer;
use table_versions::RunTables;
use upcall_handler::{Handled, handle_all};
use upcall_queue::upcalls::Upcall;

/// An act on a board, with what it is to answer.
#[derive(Clone, Copy)]
pub enum Act<'a> {
    /// A batch is polled.
    Poll(Polled),
    /// The upcalls of frames are handled together on this board.
    Handle(&'a [Upcall], Handled),
    /// The board is swept.
    Sweep(Swept),
    /// The board is swept while another puts its first entry, and then begins a sweep at the version, if there is one.
    SweepBeside(Option<u32>, Swept),
    /// The board is called under its lock.
    Call(Call<'a>),
    /// The upcalls of the frames from the first to this place, and no others, are in the queue.
    Queued(u32),
    /// The gate was told so often.
    Points(Told),
}

/// A call of a board, with what it is to answer.
#[derive(Clone, Copy)]
pub enum Call<'a> {
    Begin(u32, Result<(), BeginFault>),
    End(Result<(), EndFault>),
    /// The last sweep that was ended began at the version.
    Done(u32),
    /// The frame of the place is decided, or isn't.
    Decided(u32, bool),
    /// The journal has these settles, in this order, and no others.
    Settles(&'a [Settle]),
}

/// That a frame was settled under a version.
#[derive(Clone, Copy)]
pub struct Settle {
    pub place: u32,
    pub version: u32,
}

/// The upcalls of the port's first two frames.
pub const FIRST: Upcall = Upcall {
    port: PORT,
    place: 1,
};

pub const SECOND: Upcall = Upcall {
    port: PORT,
    place: 2,
};

/// What became of one upcall whose frame was settled, and of one that was of no use.
pub const SETTLED: Handled = Handled {
    settled: 1,
    gone: 0,
    left: 0,
    floor: 0,
    beyond: 0,
    hi: 0,
};

pub const USELESS: Handled = Handled {
    settled: 0,
    gone: 1,
    left: 0,
    floor: 0,
    beyond: 0,
    hi: 0,
};

/// Whether a board answers a call as it says.
fn is_answered<C: Case>(board: &mut Board<C>, call: Call<'_>) -> bool {
    match call {
        Call::Begin(version, expected) => board.begin(version) == expected,
        Call::End(expected) => board.end() == expected,
        Call::Done(version) => board.done() == version,
        Call::Decided(place, expected) => board.decision(place).is_some() == expected,
        Call::Settles(expected) => has_settles(board, expected),
    }
}

/// Whether a board's journal has these settles, in this order, and no others.
fn has_settles<C: Case>(board: &Board<C>, expected: &[Settle]) -> bool {
    let mut found = 0;
    for step in board.journal() {
        let Step::Settle { place, version, .. } = step else {
            continue;
        };
        let Some(next) = expected.get(found) else {
            return false;
        };
        if next.place != *place || next.version != *version {
            return false;
        }
        found += 1;
    }
    found == expected.len()
}

/// Whether the upcalls of the frames from the first to this place are in a queue, and no others.
fn has_queued(queue: &SmallQueue, last: u32) -> bool {
    if queue.upcalls.len() != last as usize {
        return false;
    }
    for (place, upcall) in queue.upcalls.iter().enumerate() {
        if upcall.port != PORT || upcall.place as usize != place + 1 {
            return false;
        }
    }
    true
}

/// Whether an act answers as it says. The seer is handed back.
fn answers<C: Case, T: RunTables<C>, R: Wait>(
    rt: &R,
    alloc: Global,
    seer: Seer<C, T>,
    run: &RunData<C>,
    stage: &mut Stage<C>,
    act: Act<'_>,
) -> (Seer<C, T>, Result<bool, AllocError>) {
    match act {
        Act::Poll(expected) => {
            let polled = poll_batch(rt, run, PORT, &stage.board, &mut stage.queue, &stage.points);
            (seer, Ok(polled == expected))
        }
        Act::Handle(upcalls, expected) => {
            let (seer, handled) = handle_all(
                rt,
                alloc,
                seer,
                run,
                &stage.board,
                upcalls,
                &stage.points,
            );
            (seer, handled.map(|handled| handled == expected))
        }
        Act::Sweep(expected) => {
            let (seer, swept) = sweep_board(
                rt,
                alloc,
                seer,
                run,
                PORT,
                &stage.board,
                &stage.points,
            );
            (seer, swept.map(|swept| swept == expected))
        }
        Act::SweepBeside(again, expected) => {
            let (seer, swept) = swept_beside(rt, alloc, seer, run, &stage.board, again);
            (seer, swept.map(|swept| swept == expected))
        }
        Act::Call(call) => (seer, Ok(is_answered(&mut *stage.board.lock(rt), call))),
        Act::Queued(last) => (seer, Ok(has_queued(&stage.queue, last))),
        Act::Points(expected) => (seer, Ok(stage.points.told() == expected)),
    }
}

/// The place of the first act, from 0, that doesn't answer as it says, on a stage with this board.
pub fn first_wrong<C: Case, T: RunTables<C>, R: Wait>(
    rt: &R,
    alloc: Global,
    seer: Seer<C, T>,
    run: &RunData<C>,
    board: Board<C>,
    room: usize,
    acts: &[Act<'_>],
) -> Result<Option<usize>, AllocError> {
    let mut stage = Stage {
        board: Mutex::new(board),
        queue: SmallQueue {
            upcalls: Vec::new(alloc),
            room,
            refused: 0,
        },
        points: Points::new(),
    };
    let (seer, wrong) = first_wrong_on(rt, alloc, seer, run, &mut stage, acts);
    drop(seer);
    drop(stage);
    wrong
}

/// The same on this stage. The seer is handed back.
fn first_wrong_on<C: Case, T: RunTables<C>, R: Wait>(
    rt: &R,
    alloc: Global,
    seer: Seer<C, T>,
    run: &RunData<C>,
    stage: &mut Stage<C>,
    acts: &[Act<'_>],
) -> (Seer<C, T>, Result<Option<usize>, AllocError>) {
    let mut seer = seer;
    for (place, act) in acts.iter().enumerate() {
        let (back, right) = answers(rt, alloc, seer, run, stage, *act);
        seer = back;
        match right {
            Ok(true) => {}
            Ok(false) => return (seer, Ok(Some(place))),
            Err(error) => return (seer, Err(error)),
        }
    }
    (seer, Ok(None))
}

use crate::counting::Begun;
use crate::gates::{FirstChecks, ThirdBatch, TwoUpcalls};
use crate::holding::{Handlers, Held, HeldPort, LateBatch, LateUpcalls, Receivers, SecondBlock};
use crate::running::{Run, Trace, passes};
use std::test::Fail;

static TWO_PORTS: Run = Run {
    words: &["--workers", "2", "edits", "out", "1=a.pcap", "2=a.pcap"],
    edits: "actions=flood|sync 0",
    traces: &[Trace {
        name: "a.pcap",
        seconds: &[1],
        times: 1,
    }],
};

#[test]
fn upcalls_are_handled_side_by_side(rt: HostRuntime) {
    let gate = TwoUpcalls::new();
    assert!(rt; passes(&rt, rt.alloc(), &TWO_PORTS, gate, &[]).expect(&rt, "ample memory"));
}

// All frames come in the second block, so that port 1 has three batches there, under one version.
static ONE_FLOW: Run = Run {
    words: &["--workers", "1", "edits", "out", "1=a.pcap", "2="],
    edits: "actions=2|sync 0",
    traces: &[Trace {
        name: "a.pcap",
        seconds: &[1],
        times: 96,
    }],
};

#[test]
fn frames_are_looked_up_while_an_upcall_is_translated(rt: HostRuntime) {
    let gate = ThirdBatch::new();
    let lines = ["look 64 miss", "look 65 mega 1"];
    assert!(rt; passes(&rt, rt.alloc(), &ONE_FLOW, gate, &lines).expect(&rt, "ample memory"));
}

static CHANGED: Run = Run {
    words: &[
        "--workers",
        "1",
        "edits",
        "out",
        "1=a.pcap",
        "2=a.pcap",
        "3=",
    ],
    edits: "actions=2|sync 2|modify actions=3",
    traces: &[Trace {
        name: "a.pcap",
        seconds: &[1, 2],
        times: 1,
    }],
};

// Each port has two sweeps in each of the two blocks at most.
const MOST_CHECKS: u64 = 4;

#[test]
fn the_revalidator_sweeps_each_port(rt: HostRuntime) {
    let gate = FirstChecks::new(MOST_CHECKS);
    assert!(rt; passes(&rt, rt.alloc(), &CHANGED, gate, &[]).expect(&rt, "ample memory"));
}

#[test]
fn edits_are_published_while_frames_are_looked_up(rt: HostRuntime) {
    let gate = SecondBlock::new(Held::Batch);
    assert!(rt; passes(&rt, rt.alloc(), &CHANGED, gate, &[]).expect(&rt, "ample memory"));
}

// The frame of port 2 comes in the second block, which has three bundles.
static THREE_BUNDLES: Run = Run {
    words: &[
        "--workers",
        "1",
        "edits",
        "out",
        "1=a.pcap",
        "2=b.pcap",
        "3=",
    ],
    edits: "actions=2|sync 2|modify actions=3|modify actions=1|modify actions=3",
    traces: &[
        Trace {
            name: "a.pcap",
            seconds: &[1, 2],
            times: 1,
        },
        Trace {
            name: "b.pcap",
            seconds: &[2],
            times: 1,
        },
    ],
};

#[test]
fn bundles_are_published_while_a_handler_learns_of_none(rt: HostRuntime) {
    let gate = SecondBlock::new(Held::Upcall);
    assert!(rt; passes(&rt, rt.alloc(), &THREE_BUNDLES, gate, &[]).expect(&rt, "ample memory"));
}

const NEW_FLOWS: [Trace; 1] = [Trace {
    name: "a.pcap",
    seconds: &[1],
    times: 16,
}];

// Runs with 1, 2 and 4 workers, each over more ports than workers.
const OF_1: Run = Run {
    words: &["--workers", "1", "edits", "out", "1=a.pcap", "2=a.pcap"],
    edits: "actions=flood",
    traces: &NEW_FLOWS,
};

const OF_2: Run = Run {
    words: &[
        "--workers",
        "2",
        "edits",
        "out",
        "1=a.pcap",
        "2=a.pcap",
        "3=a.pcap",
        "4=a.pcap",
    ],
    edits: "actions=flood",
    traces: &NEW_FLOWS,
};

const OF_4: Run = Run {
    words: &[
        "--workers",
        "4",
        "edits",
        "out",
        "1=a.pcap",
        "2=a.pcap",
        "3=a.pcap",
        "4=a.pcap",
        "5=a.pcap",
        "6=a.pcap",
    ],
    edits: "actions=flood",
    traces: &NEW_FLOWS,
};

// Those runs, and with how many workers each is.
static TEAMS: [(Run, u32); 3] = [(OF_1, 1), (OF_2, 2), (OF_4, 4)];

#[test]
fn each_worker_begins_once(rt: HostRuntime) {
    for (run, workers) in &TEAMS {
        let gate = Begun::new(*workers);
        assert!(rt;
            passes(&rt, rt.alloc(), run, gate, &[]).expect(&rt, "ample memory"),
            "{}",
            *workers
        );
    }
}

#[test]
fn there_are_as_many_receive_workers_as_asked_for(rt: HostRuntime) {
    for (run, workers) in &TEAMS {
        let gate = Receivers::new(u64::from(*workers));
        assert!(rt;
            passes(&rt, rt.alloc(), run, gate, &[]).expect(&rt, "ample memory"),
            "{}",
            *workers
        );
    }
}

#[test]
fn there_are_as_many_handlers_as_asked_for(rt: HostRuntime) {
    for (run, workers) in &TEAMS {
        let gate = Handlers::new(u64::from(*workers));
        assert!(rt;
            passes(&rt, rt.alloc(), run, gate, &[]).expect(&rt, "ample memory"),
            "{}",
            *workers
        );
    }
}

// Of two receive workers one polls ports 1 and 3, and the other 2 and 4.
#[test]
fn a_receive_worker_polls_every_second_port_of_two(rt: HostRuntime) {
    for (port, of_other, of_same) in [(1, 4, 3), (2, 3, 4)] {
        let gate = HeldPort::new(port, of_other, of_same);
        assert!(rt;
            passes(&rt, rt.alloc(), &OF_2, gate, &[]).expect(&rt, "ample memory"),
            "{port}"
        );
    }
}

// How many frames each port of it has, all of which miss.
const FRAMES: u32 = 16;

#[test]
fn an_upcall_is_handled_that_comes_long_after_the_others(rt: HostRuntime) {
    let gate = LateBatch::new(FRAMES);
    assert!(rt; passes(&rt, rt.alloc(), &OF_1, gate, &[]).expect(&rt, "ample memory"));
}

#[test]
fn upcalls_are_handled_that_wait_when_all_frames_are_looked_up(
    rt: HostRuntime,
) -> Result<(), Fail> {
    let gate = LateUpcalls::new(FRAMES);
    assert!(rt; passes(&rt, rt.alloc(), &OF_1, gate, &[])?);
    Ok(())
}

//! Gates that hold a thread, or that keep in mind which points were passed.

use edge_io::{Gate, Point};
use std::sync::atomic::{AtomicBool, AtomicU64, Ordering};
use std::thread;

// How many turns a thread is held at most.
const MOST_TURNS: u32 = 1_000_000;

/// A gate that tells, after a run, whether it was passed as it should be.
pub trait Observer: Gate {
    fn is_passed(&self) -> bool;
}

/// Something that threads wait for: whether it came, and whether one thread waited for it already.
#[derive(Drop)]
pub struct Awaited {
    came: AtomicBool,
    has_waited: AtomicBool,
    saw: AtomicBool,
}

impl Awaited {
    pub fn new() -> Awaited {
        Awaited {
            came: AtomicBool::new(false),
            has_waited: AtomicBool::new(false),
            saw: AtomicBool::new(false),
        }
    }

    pub fn come(&self) {
        self.came.store(true, Ordering::SeqCst);
    }

    /// Whether it came.
    pub fn has_come(&self) -> bool {
        self.came.load(Ordering::SeqCst)
    }

    /// Holds the thread that calls this first until it came, or for the most turns.
    pub fn hold_first(&self) {
        if self.has_waited.swap(true, Ordering::SeqCst) {
            return;
        }
        for _ in 0..MOST_TURNS {
            if self.came.load(Ordering::SeqCst) {
                self.saw.store(true, Ordering::SeqCst);
                return;
            }
            thread::yield_now();
        }
    }

    /// Whether it came while a thread was held for it.
    pub fn was_seen(&self) -> bool {
        self.saw.load(Ordering::SeqCst)
    }
}

/// Holds the first upcall until one of another port is translated.
#[derive(Drop)]
pub struct TwoUpcalls {
    first_port: AtomicU64,
    second: Awaited,
}

// No port.
const NONE: u64 = 0;

impl TwoUpcalls {
    pub fn new() -> TwoUpcalls {
        TwoUpcalls {
            first_port: AtomicU64::new(NONE),
            second: Awaited::new(),
        }
    }
}

impl Gate for TwoUpcalls {
    fn pass(&self, point: Point) {
        let Point::Upcall { port, .. } = point else {
            return;
        };
        let first = self.first_port.swap(u64::from(port), Ordering::SeqCst);
        if first == NONE {
            self.second.hold_first();
        } else if first != u64::from(port) {
            self.second.come();
        }
    }
}

impl Observer for TwoUpcalls {
    fn is_passed(&self) -> bool {
        self.second.was_seen()
    }
}

/// Holds batches of port 1 in a block after one without frames: the second one until an upcall is translated, and the
/// third one until an upcall is that is none of the first batch's. It holds the first upcall until the third batch
/// begins. So the second batch is looked up while the upcall is under way, and the third one after upcalls were
/// settled.
#[derive(Drop)]
pub struct ThirdBatch {
    batches: AtomicU64,
    upcall: Awaited,
    third: Awaited,
    later: Awaited,
}

// The most upcalls that a handler settles together.
const MOST_TOGETHER: u32 = 32;

impl ThirdBatch {
    pub fn new() -> ThirdBatch {
        ThirdBatch {
            batches: AtomicU64::new(0),
            upcall: Awaited::new(),
            third: Awaited::new(),
            later: Awaited::new(),
        }
    }

    fn pass_batch(&self) {
        match self.batches.fetch_add(1, Ordering::SeqCst) {
            0 | 1 => {}
            2 => self.upcall.hold_first(),
            _ => {
                self.third.come();
                self.later.hold_first();
            }
        }
    }
}

impl Gate for ThirdBatch {
    fn pass(&self, point: Point) {
        match point {
            Point::Batch { port: 1 } => self.pass_batch(),
            Point::Upcall { place, .. } => {
                if place > MOST_TOGETHER {
                    self.later.come();
                }
                self.upcall.come();
                self.third.hold_first();
            }
            _ => {}
        }
    }
}

impl Observer for ThirdBatch {
    fn is_passed(&self) -> bool {
        self.upcall.was_seen() && self.third.was_seen() && self.later.was_seen()
    }
}

/// How often the first entry of each of two ports was checked: at least once, and so often at most.
#[derive(Drop)]
pub struct FirstChecks {
    most: u64,
    of_port_1: AtomicU64,
    of_port_2: AtomicU64,
}

impl FirstChecks {
    pub fn new(most: u64) -> FirstChecks {
        FirstChecks {
            most,
            of_port_1: AtomicU64::new(0),
            of_port_2: AtomicU64::new(0),
        }
    }

    fn are_enough(&self, checks: u64) -> bool {
        checks > 0 && checks <= self.most
    }
}

impl Gate for FirstChecks {
    fn pass(&self, point: Point) {
        match point {
            Point::Check { port: 1, entry: 1 } => {
                self.of_port_1.fetch_add(1, Ordering::SeqCst);
            }
            Point::Check { port: 2, entry: 1 } => {
                self.of_port_2.fetch_add(1, Ordering::SeqCst);
            }
            _ => {}
        }
    }
}

impl Observer for FirstChecks {
    fn is_passed(&self) -> bool {
        self.are_enough(self.of_port_1.load(Ordering::SeqCst))
            && self.are_enough(self.of_port_2.load(Ordering::SeqCst))
    }
}

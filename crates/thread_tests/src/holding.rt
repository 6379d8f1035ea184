//! Gates that hold several threads at once, and that count which upcalls were translated.

use crate::gates::{Awaited, Observer};
use edge_io::{Gate, Point};
use std::sync::atomic::{AtomicBool, AtomicU64, Ordering};
use std::thread;

// For how many turns a thread is held at most where others are to come, and where none is to come.
const MOST_TURNS: u32 = 1_000_000;

const FEW_TURNS: u32 = 20_000;

/// Holds threads until so many are held at once, and then for some turns more, and keeps in mind how many were.
#[derive(Drop)]
pub struct AtOnce {
    wanted: u64,
    held: AtomicU64,
    most: AtomicU64,
    is_open: AtomicBool,
}

impl AtOnce {
    fn new(wanted: u64) -> AtOnce {
        AtOnce {
            wanted,
            held: AtomicU64::new(0),
            most: AtomicU64::new(0),
            is_open: AtomicBool::new(false),
        }
    }

    // Holds the thread until so many are held, or for the most turns, and then for a few.
    fn hold(&self) {
        if self.is_open.load(Ordering::SeqCst) {
            return;
        }
        let held = self.held.fetch_add(1, Ordering::SeqCst).saturating_add(1);
        self.most.fetch_max(held, Ordering::SeqCst);
        for _ in 0..MOST_TURNS {
            if self.most.load(Ordering::SeqCst) >= self.wanted {
                break;
            }
            thread::yield_now();
        }
        for _ in 0..FEW_TURNS {
            thread::yield_now();
        }
        self.is_open.store(true, Ordering::SeqCst);
        self.held.fetch_sub(1, Ordering::SeqCst);
    }

    // Whether so many were held at once, and no more.
    fn has_most(&self) -> bool {
        self.most.load(Ordering::SeqCst) == self.wanted
    }
}

/// How many receive workers there are: each is held where a batch begins.
#[derive(Drop)]
pub struct Receivers(AtOnce);

impl Receivers {
    pub fn new(wanted: u64) -> Receivers {
        Receivers(AtOnce::new(wanted))
    }
}

impl Gate for Receivers {
    fn pass(&self, point: Point) {
        if let Point::Batch { .. } = point {
            self.0.hold();
        }
    }
}

impl Observer for Receivers {
    fn is_passed(&self) -> bool {
        self.0.has_most()
    }
}

/// How many handlers there are: each is held where it has translated an upcall.
#[derive(Drop)]
pub struct Handlers(AtOnce);

impl Handlers {
    pub fn new(wanted: u64) -> Handlers {
        Handlers(AtOnce::new(wanted))
    }
}

impl Gate for Handlers {
    fn pass(&self, point: Point) {
        if let Point::Upcall { .. } = point {
            self.0.hold();
        }
    }
}

impl Observer for Handlers {
    fn is_passed(&self) -> bool {
        self.0.has_most()
    }
}

/// Holds the first batch of a port until the last port of the other receive worker is polled, and keeps in mind
/// whether another port of its own worker was polled by then.
#[derive(Drop)]
pub struct HeldPort {
    port: u16,
    of_other: u16,
    of_same: u16,
    other: Awaited,
    came_first: AtomicBool,
}

impl HeldPort {
    pub fn new(port: u16, of_other: u16, of_same: u16) -> HeldPort {
        HeldPort {
            port,
            of_other,
            of_same,
            other: Awaited::new(),
            came_first: AtomicBool::new(false),
        }
    }
}

impl Gate for HeldPort {
    fn pass(&self, point: Point) {
        let Point::Batch { port } = point else {
            return;
        };
        if port == self.port {
            self.other.hold_first();
        } else if port == self.of_other {
            self.other.come();
        } else if port == self.of_same && !self.other.has_come() {
            self.came_first.store(true, Ordering::SeqCst);
        }
    }
}

impl Observer for HeldPort {
    fn is_passed(&self) -> bool {
        self.other.was_seen() && !self.came_first.load(Ordering::SeqCst)
    }
}

/// Numbers below 64, each as a bit.
#[derive(Drop)]
pub struct Numbers(AtomicU64);

impl Numbers {
    pub fn new() -> Numbers {
        Numbers(AtomicU64::new(0))
    }

    pub fn add(&self, number: u32) {
        if number < u64::BITS {
            self.0.fetch_or(1 << number, Ordering::SeqCst);
        }
    }

    /// Whether they are those below a number.
    pub fn are_below(&self, number: u32) -> bool {
        let below = 1u64
            .checked_shl(number)
            .map_or(u64::MAX, |bit| bit.wrapping_sub(1));
        self.0.load(Ordering::SeqCst) == below
    }

    fn count(&self) -> u32 {
        self.0.load(Ordering::SeqCst).count_ones()
    }
}

/// Holds the batch of port 2 until the upcall of port 1 is translated, and for some turns more, in which the handler
/// finds the queue empty. It counts the upcalls of port 2, of which so many are wanted.
#[derive(Drop)]
pub struct LateBatch {
    first: Awaited,
    wanted: u32,
    late: Numbers,
}

impl LateBatch {
    pub fn new(wanted: u32) -> LateBatch {
        LateBatch {
            first: Awaited::new(),
            wanted,
            late: Numbers::new(),
        }
    }
}

impl Gate for LateBatch {
    fn pass(&self, point: Point) {
        match point {
            Point::Batch { port: 2 } => {
                self.first.hold_first();
                for _ in 0..FEW_TURNS {
                    thread::yield_now();
                }
            }
            Point::Upcall { port: 1, .. } => self.first.come(),
            Point::Upcall { port: 2, place } => self.late.add(place),
            _ => {}
        }
    }
}

impl Observer for LateBatch {
    fn is_passed(&self) -> bool {
        self.late.count() == self.wanted
    }
}

/// Holds the first upcall until the batch of port 2 has begun, and for some turns more, in which the receive worker
/// ends. It counts the upcalls of port 2, of which so many are wanted.
#[derive(Drop)]
pub struct LateUpcalls {
    last_batch: Awaited,
    wanted: u32,
    late: Numbers,
}

impl LateUpcalls {
    pub fn new(wanted: u32) -> LateUpcalls {
        LateUpcalls {
            last_batch: Awaited::new(),
            wanted,
            late: Numbers::new(),
        }
    }
}

impl Gate for LateUpcalls {
    fn pass(&self, point: Point) {
        match point {
            Point::Batch { port: 2 } => self.last_batch.come(),
            Point::Upcall { port: 1, .. } => {
                self.last_batch.hold_first();
                for _ in 0..FEW_TURNS {
                    thread::yield_now();
                }
            }
            Point::Upcall { port: 2, place } => self.late.add(place),
            _ => {}
        }
    }
}

impl Observer for LateUpcalls {
    fn is_passed(&self) -> bool {
        self.late.count() == self.wanted
    }
}

/// Holds what comes to a point of the second block until the first entry of port 1 is checked, and so until all edits
/// of the block are published.
#[derive(Drop)]
pub struct SecondBlock {
    held: Held,
    batches: AtomicU64,
    holds: AtomicBool,
    check: Awaited,
}

/// What is held in the second block.
#[derive(Clone, Copy, PartialEq, Eq)]
pub enum Held {
    /// The batch of port 1.
    Batch,
    /// The upcall of port 2.
    Upcall,
}

impl SecondBlock {
    pub fn new(held: Held) -> SecondBlock {
        SecondBlock {
            held,
            batches: AtomicU64::new(0),
            holds: AtomicBool::new(false),
            check: Awaited::new(),
        }
    }

    fn hold(&self) {
        self.holds.store(true, Ordering::SeqCst);
        self.check.hold_first();
    }

    // A check of the second block waits until the other is held.
    fn pass_check(&self) {
        for _ in 0..MOST_TURNS {
            if self.holds.load(Ordering::SeqCst) {
                self.check.come();
                return;
            }
            thread::yield_now();
        }
    }
}

impl Gate for SecondBlock {
    fn pass(&self, point: Point) {
        match point {
            Point::Batch { port: 1 } => {
                let before = self.batches.fetch_add(1, Ordering::SeqCst);
                if before == 1 && self.held == Held::Batch {
                    self.hold();
                }
            }
            Point::Upcall { port: 2, .. } if self.held == Held::Upcall => self.hold(),
            Point::Check { port: 1, entry: 1 } => self.pass_check(),
            _ => {}
        }
    }
}

impl Observer for SecondBlock {
    fn is_passed(&self) -> bool {
        self.check.was_seen()
    }
}

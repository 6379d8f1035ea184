//! What acts are done with: a board behind its lock, a queue with little room, and a gate that counts what it is told.
use edge_io::{Gate, Point};
use pmd_board::Board;
use run_case::Case;
use std::sync::Mutex;
use std::sync::atomic::{AtomicU64, Ordering};
use upcall_queue::upcalls::{Upcall, Upcalls};

#[derive(Drop)]
pub struct Stage<C: Case> {
    pub board: Mutex<Board<C>>,
    pub queue: SmallQueue,
    pub points: Points,
}

/// A queue of upcalls, with room for so many.
#[derive(Drop)]
pub struct SmallQueue {
    pub upcalls: Vec<Upcall>,
    pub room: usize,
    pub refused: u64,
}

impl<C: Case> Upcalls<C> for SmallQueue {
    type Rest = usize;

    ghost rest = { λ q. q.room };

    ghost given = { λ q. q.upcalls.items };

    ghost refusals = { λ q. q.refused };

    fn give(&mut self, port: u16, place: u32) -> bool {
        if self.upcalls.len() < self.room && self.upcalls.push(Upcall { port, place }).is_ok() {
            return true;
        }
        self.refused = self.refused.saturating_add(1);
        false
    }

    fn room(&mut self) -> usize {
        self.room.saturating_sub(self.upcalls.len())
    }
}

/// How often each kind of point was told.
#[derive(Clone, Copy, PartialEq, Eq, Debug)]
pub struct Told {
    pub batches: u64,
    pub upcalls: u64,
    pub checks: u64,
}

/// Counts the points that it is told of.
#[derive(Drop)]
pub struct Points {
    batches: AtomicU64,
    upcalls: AtomicU64,
    checks: AtomicU64,
}

impl Points {
    pub fn new() -> Points {
        Points {
            batches: AtomicU64::new(0),
            upcalls: AtomicU64::new(0),
            checks: AtomicU64::new(0),
        }
    }

    pub fn told(&self) -> Told {
        Told {
            batches: self.batches.load(Ordering::SeqCst),
            upcalls: self.upcalls.load(Ordering::SeqCst),
            checks: self.checks.load(Ordering::SeqCst),
        }
    }
}

impl Gate for Points {
    fn pass(&self, point: Point) {
        match point {
            Point::Begin { .. } => 0,
            Point::Batch { .. } => self.batches.fetch_add(1, Ordering::SeqCst),
            Point::Upcall { .. } => self.upcalls.fetch_add(1, Ordering::SeqCst),
            Point::Check { .. } => self.checks.fetch_add(1, Ordering::SeqCst),
        };
    }
}

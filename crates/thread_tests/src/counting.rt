//! A gate that keeps in mind which workers began.

use crate::gates::Observer;
use crate::holding::Numbers;
use edge_io::{Gate, Point, Worker};
use std::sync::atomic::{AtomicU64, Ordering};

// The workers of one kind that began: how many, and their numbers.
#[derive(Drop)]
struct Numbered {
    count: AtomicU64,
    numbers: Numbers,
}

impl Numbered {
    fn new() -> Numbered {
        Numbered {
            count: AtomicU64::new(0),
            numbers: Numbers::new(),
        }
    }

    fn begin(&self, number: usize) {
        self.count.fetch_add(1, Ordering::SeqCst);
        if let Ok(number) = u32::try_from(number) {
            self.numbers.add(number);
        }
    }

    // Whether so many began, each with a number of its own below that.
    fn are_first(&self, count: u32) -> bool {
        self.count.load(Ordering::SeqCst) == u64::from(count) && self.numbers.are_below(count)
    }
}

/// The workers that began in a run with so many.
#[derive(Drop)]
pub struct Begun {
    workers: u32,
    receivers: Numbered,
    handlers: Numbered,
    editors: AtomicU64,
    revalidators: AtomicU64,
}

impl Begun {
    pub fn new(workers: u32) -> Begun {
        Begun {
            workers,
            receivers: Numbered::new(),
            handlers: Numbered::new(),
            editors: AtomicU64::new(0),
            revalidators: AtomicU64::new(0),
        }
    }
}

impl Gate for Begun {
    fn pass(&self, point: Point) {
        if let Point::Begin { worker } = point {
            match worker {
                Worker::Receiver { number } => self.receivers.begin(number),
                Worker::Handler { number } => self.handlers.begin(number),
                Worker::Editor => {
                    self.editors.fetch_add(1, Ordering::SeqCst);
                }
                Worker::Revalidator => {
                    self.revalidators.fetch_add(1, Ordering::SeqCst);
                }
            }
        }
    }
}

impl Observer for Begun {
    /// So many receive workers and handlers began, each with a number of its own from 0, one editor, and one
    /// revalidator.
    fn is_passed(&self) -> bool {
        self.receivers.are_first(self.workers)
            && self.handlers.are_first(self.workers)
            && self.editors.load(Ordering::SeqCst) == 1
            && self.revalidators.load(Ordering::SeqCst) == 1
    }
}

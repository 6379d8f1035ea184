ghost use Rattle.std.specs.Prelude.{◌≡◌, ◌<◌};
ghost use Rattle.rx_worker.specs.Batches.{batch_size, is_missed};

/// The looks of a batch: as many places as were looked up, from the first on.
#[derive(Clone, Copy, PartialEq, Eq)]
pub struct Batch {
    /// The place of the first one, from 1: the board's next place before the batch.
    pub first: u32,
    /// How many there were, `BATCH_SIZE` at most.
    pub looked: u32,
    /// Which of them were misses: bit i is 1 exactly where the place `first + i` was.
    pub missed: u32,
}

impl Batch {
    /// Whether the look at a turn, from 0 and below `BATCH_SIZE`, was a miss.
    pub fn is_missed(&self, turn: u32) -> bool
        requires { turn < batch_size }
        ensures { result ≡ is_missed self.now.missed turn }
    {
        (self.missed >> turn) % 2 == 1
    }
}

/// What a poll of a port did. Frames that are neither among the given nor the refused were decided by a cache.
#[derive(Clone, Copy, PartialEq, Eq)]
pub struct Polled {
    /// How many frames were looked up, `BATCH_SIZE` at most.
    pub looked: u32,
    /// How many of their upcalls were taken.
    pub given: u32,
    /// How many were refused.
    pub refused: u32,
}

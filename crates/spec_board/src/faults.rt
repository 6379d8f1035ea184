/// Why a block was not opened.
#[derive(Clone, Copy, PartialEq, Eq)]
pub enum OpenFault {
    /// It isn't the next block, or there is none after the last one.
    Order { block: u32, last: u32 },
    /// The frame of this place, in the board's block, wasn't looked up yet.
    LooksLeft { next: u32 },
    /// So many frames wait for their upcalls.
    Pending(u32),
    /// No sweep of at least version `lo` is completed, which begins the block.
    Unswept { done: u32, lo: u32 },
}

/// Why a frame was not looked up.
#[derive(Clone, Copy, PartialEq, Eq)]
pub enum LookFault {
    /// Another place is next.
    OutOfTurn { next: u32 },
    /// The frame is of another block than the board, which is in this one.
    OtherBlock { block: u32 },
}

/// Why a frame was not decided.
#[derive(Clone, Copy, PartialEq, Eq)]
pub enum SettleFault {
    /// It doesn't wait for an upcall.
    NotPending,
    /// The translation's version is below that of the last sweep that began.
    Stale { floor: u32 },
    /// The translation's version isn't reached within the board's block.
    Ahead { hi: u32 },
    OutOfMemory,
}

/// Why a sweep was not begun.
#[derive(Clone, Copy, PartialEq, Eq)]
pub enum BeginFault {
    /// One runs.
    Sweeping { floor: u32 },
    /// The version isn't reached within the board's block.
    Ahead { hi: u32 },
    OutOfMemory,
}

/// Why an entry was not revalidated.
#[derive(Clone, Copy, PartialEq, Eq)]
pub enum PutFault {
    /// The sweep doesn't list it.
    NotListed,
    /// The translation's version is below that of the sweep.
    Stale { floor: u32 },
    /// The translation's version isn't reached within the board's block.
    Ahead { hi: u32 },
}

/// Why a sweep was not ended.
#[derive(Clone, Copy, PartialEq, Eq)]
pub enum EndFault {
    /// None runs.
    NotSweeping,
    /// So many entries are still listed.
    Left(u32),
}

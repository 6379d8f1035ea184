//! The steps of a board, with their results.
ghost use Rattle.std.specs.Prelude.{◌≡◌, IfOk};

use spec_board::{Looked, PutDone};
use std::alloc::{AllocError, Global};
use std::marker::Model;

/// The numbers of entries, in rising order.
///
/// They stand in a box, so that a step that has none takes little room.
#[derive(Drop)]
pub struct EntryNumbers(Box<Vec<u32>>);

impl Model for EntryNumbers {
    ghost use Rattle.std.specs.Prelude.{ℕ, List};

    ghost Value = { List ℕ };

    ghost view = { λ n. n.0.value.items };
}

impl EntryNumbers {
    /// The numbers of a vector. The only error is out of memory.
    pub fn new(alloc: Global, numbers: Vec<u32>) -> Result<EntryNumbers, AllocError>
        ensures { IfOk result (λ n. n ≡ numbers.items) }
    {
        Ok(EntryNumbers(Box::new(alloc, numbers)?))
    }

    pub fn as_slice(&self) -> &[u32]
        ensures { result.now ≡ self.now }
    {
        self.0.as_slice()
    }

    /// The vector again. It takes no memory.
    pub fn into_vec(self) -> Vec<u32>
        ensures { result.items ≡ self }
    {
        Box::into_inner(self.0)
    }
}

/// What the settle of a frame did beside deciding it.
#[derive(Drop)]
pub enum Settled {
    /// This entry covers the frame's key already.
    Present(u32),
    /// There are as many entries as may be.
    Full,
    /// An entry of this number is new, and those that it overlaps are dropped.
    Installed { no: u32, dropped: EntryNumbers },
}

/// A step of a board's journal. Places, entries and versions are counted from 1, and blocks from 0.
#[derive(Drop)]
pub enum Step {
    /// The block was opened.
    Open {
        block: u32,
    },
    /// The frame of a place was looked up.
    Look {
        place: u32,
        result: Looked,
    },
    /// The frame of a place was decided under a version.
    Settle {
        place: u32,
        version: u32,
        result: Settled,
    },
    /// A sweep began at a version.
    Begin {
        version: u32,
    },
    /// An entry was revalidated under a version.
    Put {
        entry: u32,
        version: u32,
        result: PutDone,
    },
    /// The sweep ended.
    End,
}

//! How the handling of upcalls ended.
ghost use Rattle.std.specs.Prelude.{◌≡◌, ◌≤◌, ◌<◌};
ghost use Rattle.upcall_handler.specs.Upshots.{counted, count_of, none_handled};

/// How the handling of one upcall ended.
#[derive(Clone, Copy)]
pub enum Upshot {
    /// The frame is decided.
    Done,
    /// The run has no such frame, or the board was of another port, or the frame wasn't pending.
    Gone,
    /// `TRIES` translations were each older than a sweep that had begun. The last of these sweeps began at this
    /// version.
    Left { floor: u32 },
    /// The translation was newer than this version, the newest that the board's block allows.
    Beyond { hi: u32 },
}

/// What a board answered to the settle of a frame.
#[derive(Clone, Copy)]
pub enum Settling {
    /// The frame is decided.
    Done,
    /// The board is of another port, or the frame isn't pending.
    Gone,
    /// The translation is older than a sweep that began, at this version.
    Stale { floor: u32 },
    /// The translation is newer than this version, the newest that the board's block allows.
    Ahead { hi: u32 },
}

/// What became of upcalls that were handled together: how many ended in which way.
#[derive(Clone, Copy, PartialEq, Eq, Debug)]
pub struct Handled {
    /// The frame is decided by this call.
    pub settled: usize,
    /// The run has no such frame, or the board was of another port, or the frame wasn't pending.
    pub gone: usize,
    /// Each of `TRIES` translations was older than a sweep that had begun.
    pub left: usize,
    /// The version at which the last of these sweeps began; 0 where no frame was left.
    pub floor: u32,
    /// The translation was newer than the board's block allows.
    pub beyond: usize,
    /// The newest version that the block allows; 0 where no translation was newer.
    pub hi: u32,
}

impl Handled {
    /// What became of no upcall.
    pub fn none() -> Handled
        ensures { result ≡ none_handled }
    {
        Handled {
            settled: 0,
            gone: 0,
            left: 0,
            floor: 0,
            beyond: 0,
            hi: 0,
        }
    }

    /// Of how many upcalls it tells.
    pub fn total(&self) -> usize
        requires { count_of self.now ≤ usize.MAX }
        ensures { result ≡ count_of self.now }
    {
        self.settled + self.gone + self.left + self.beyond
    }

    /// Counts one more upcall, which ended so.
    pub(crate) fn count(&mut self, upshot: Upshot)
        requires { count_of self.old < usize.MAX }
        ensures { self.new ≡ counted self.old upshot }
    {
        match upshot {
            Upshot::Done => self.settled += 1,
            Upshot::Gone => self.gone += 1,
            Upshot::Left { floor } => {
                self.left += 1;
                self.floor = floor;
            }
            Upshot::Beyond { hi } => {
                self.beyond += 1;
                self.hi = hi;
            }
        }
    }
}

/// How many more lines are looked at.
#[derive(Clone, Copy)]
pub(crate) struct Budget {
    left: u64,
}

impl Budget {
    pub(crate) fn new(lines: u64) -> Budget {
        Budget { left: lines }
    }

    /// Whether so many more may be looked at, which are taken off then.
    pub(crate) fn take(&mut self, lines: usize) -> bool {
        let lines = lines as u64;
        if self.left < lines {
            return false;
        }
        self.left -= lines;
        true
    }
}

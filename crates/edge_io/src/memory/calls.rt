ghost use Rattle.std.specs.Prelude.{◌≡◌, ◌↔◌, IsTrue};
ghost use Rattle.edge_io.specs.Calls.{with_call, IsDue};

use std::marker::Model;

/// The calls of a shelf or a sink in memory, counted from 1.
#[derive(Drop)]
pub(crate) struct NumberedCalls {
    made: u64,
    to_fail: Vec<u64>,
}

impl Model for NumberedCalls {
    ghost use Rattle.edge_io.specs.Calls.{Calls};

    ghost Value = { Calls };

    ghost view = { λ c. record { made = c.made; to_fail = c.to_fail.items } };
}

impl NumberedCalls {
    pub(crate) fn new(to_fail: Vec<u64>) -> NumberedCalls
        ensures { result ≡ record { made = 0; to_fail = to_fail.items } }
    {
        NumberedCalls { made: 0, to_fail }
    }

    pub(crate) fn made(&self) -> u64
        ensures { result ≡ self.now.made }
    {
        self.made
    }

    /// Counts a call, and says whether it is one that is to fail.
    pub(crate) fn next_fails(&mut self) -> bool
        ensures counted { self.new ≡ with_call self.old }
        ensures due { IsTrue result ↔ IsDue self.new }
    {
        self.made = self.made.saturating_add(1);
        self.to_fail.contains(&self.made)
    }
}

use run_case::Case;

/// Takes the upcalls of a run.
pub trait Upcalls<C: Case> {
    ghost use Rattle.std.specs.Prelude.{◌≡◌, ◌≤◌, ◌++◌, ◌∷◌, [], ℕ, List, MatchBool, IsFalse};
    ghost use Rattle.spec_base.specs.Counts.{Rose};
    ghost use Rattle.upcall_queue.specs.declared.upcalls.upcall.Upcall.{Upcall};

    /// What else it is, which no call changes. No value of it is made.
    type Rest;

    ghost rest: { Self → Self.Rest };

    /// The upcalls that it took, in the order in which they were given.
    ghost given: { Self → List Upcall };

    /// How many upcalls it refused.
    ghost refusals: { Self → ℕ };

    /// Gives an upcall, and answers whether it was taken.
    ///
    /// It takes no memory.
    fn give(&mut self, port: u16, place: u32) -> bool
        ensures given { MatchBool result (given self.new ≡ given self.old ++ record { port = port; place = place } ∷ []) (given self.new ≡ given self.old) }
        ensures count { refusals self.old ≤ refusals self.new }
        ensures refused { IsFalse result → Rose (refusals self.old) (refusals self.new) }
        ensures rest { rest self.new ≡ rest self.old };

    /// How many upcalls it had room for at some moment of the call. This is a hint, by which a frame whose upcall would
    /// be refused needn't be looked up yet: `give` may take more, and it may take fewer.
    ///
    /// It takes no memory.
    fn room(&mut self) -> usize
        ensures given { given self.new ≡ given self.old }
        ensures refusals { refusals self.new ≡ refusals self.old }
        ensures rest { rest self.new ≡ rest self.old };
}

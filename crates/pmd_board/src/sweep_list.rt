//! The entries that a sweep has yet to put.
ghost use Rattle.std.specs.Prelude.{◌≡◌, ◌<◌, ◌==◌, not, [], nat_lt, length, filter, slice_index, IfOk, IfSome, IfNone, false};
ghost use Rattle.std.specs.List.{find, list_any};
ghost use Rattle.spec_board.specs.Effects.{is_among};
ghost use Rattle.board_steps.specs.StepViews.{settled_view};
ghost use Rattle.megaflow_table.specs.Live.{IsRising};
ghost use Rattle.pmd_board.specs.SweepLists.{without_dropped};

use board_steps::Settled;
use std::alloc::{AllocError, Global};
use std::collections::VecDeque;
use std::marker::Model;

/// The numbers of entries that a sweep has yet to put, in rising order. They are put from the front as a rule.
#[derive(Drop)]
pub struct SweepList(VecDeque<u32>);

impl Model for SweepList {
    ghost use Rattle.std.specs.Prelude.{ℕ, List};

    ghost Value = { List ℕ };

    ghost use Rattle.megaflow_table.specs.Live.{IsRising};

    ghost view = { λ l. l.0.items };

    ghost invariant = { λ l. IsRising l.0.items };
}

impl SweepList {
    /// No entries. It takes no memory.
    pub fn new(alloc: Global) -> SweepList
        ensures { result ≡ [] }
    {
        SweepList(VecDeque::new(alloc))
    }

    /// The entries of these numbers.
    pub fn of(alloc: Global, numbers: &[u32]) -> Result<SweepList, AllocError>
        requires { IsRising numbers.now }
        ensures { IfOk result (λ l. l ≡ numbers.now) }
    {
        let mut list = VecDeque::with_capacity(alloc, numbers.len())?;
        'numbers: for number in numbers {
            list.push_back(*number)?;
        }
        Ok(SweepList(list))
    }

    pub fn len(&self) -> usize
        ensures { result ≡ length self.now }
    {
        self.0.len()
    }

    // Where a number stands, if it does.
    fn place_of(&self, number: u32) -> Option<usize>
        ensures some { IfSome result
            (λ place. (place < length self.now) × (slice_index self.now place ≡ number)) }
        ensures none { IfNone result (list_any (λ n. n == number) self.now ≡ false) }
    {
        let past = self.0.partition_point(|n| *n <= number);
        if past > 0 && self.0[past - 1] == number {
            Some(past - 1)
        } else {
            None
        }
    }

    /// Whether the entry of a number is to be put.
    pub fn has(&self, number: u32) -> bool
        ensures { result ≡ list_any (λ n. n == number) self.now }
    {
        self.place_of(number).is_some()
    }

    /// The least number above this one.
    pub fn above(&self, number: u32) -> Option<u32>
        ensures { result ≡ find (λ n. nat_lt number n) self.now }
    {
        let place = self.0.partition_point(|n| *n <= number);
        if place < self.0.len() {
            Some(self.0[place])
        } else {
            None
        }
    }

    /// The entry of a number isn't to be put any more.
    pub fn forget(&mut self, number: u32)
        ensures { self.new ≡ filter (λ n. not (n == number)) self.old }
    {
        if let Some(place) = self.place_of(number) {
            self.0.remove(place);
        }
    }

    /// The entries that a settle dropped aren't to be put any more.
    pub fn forget_dropped(&mut self, settled: &Settled)
        ensures { self.new ≡ without_dropped (settled_view settled.now) self.old }
    {
        match settled {
            Settled::Installed { no: _, dropped } => self.forget_all(dropped.as_slice()),
            _ => {}
        }
    }

    // The entries of these numbers aren't to be put any more.
    fn forget_all(&mut self, numbers: &[u32])
        ensures { self.new ≡ filter (λ n. not (is_among numbers.now n)) self.old }
    {
        'numbers: for number in numbers {
            self.forget(*number);
        }
    }
}

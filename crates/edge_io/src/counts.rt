ghost use Rattle.std.specs.Prelude.{◌≡◌};
ghost use Rattle.edge_io.specs.Counts.{no_faults, with_fault, with_read_fault, with_write_fault};

use crate::Failed;
use std::marker::Model;

/// Counts a failed call, up to the greatest number of 64 bits.
pub fn counted_fault(count: &mut u64) -> Failed
    ensures fault { result ≡ Failed.Fault }
    ensures counted { count.new ≡ with_fault count.old }
{
    *count = count.saturating_add(1);
    Failed::Fault
}

/// How often the calls of a shelf have failed: what whoever has a shelf of its own keeps, to count as the trait asks.
#[derive(Drop)]
pub struct FaultCounts {
    reading: u64,
    writing: u64,
}

impl Model for FaultCounts {
    ghost use Rattle.edge_io.specs.Counts.{Counts};

    ghost Value = { Counts };

    ghost view = { λ c. record { reading = c.reading; writing = c.writing } };
}

impl FaultCounts {
    /// The counts before any call.
    pub fn new() -> FaultCounts
        ensures { result ≡ no_faults }
    {
        FaultCounts {
            reading: 0,
            writing: 0,
        }
    }

    /// The same counts again.
    pub fn snapshot(&self) -> FaultCounts
        ensures { result ≡ self.now }
    {
        FaultCounts {
            reading: self.reading,
            writing: self.writing,
        }
    }

    /// Counts a failed call of reading.
    pub fn read_fault(&mut self) -> Failed
        ensures fault { result ≡ Failed.Fault }
        ensures counted { self.new ≡ with_read_fault self.old }
    {
        counted_fault(&mut self.reading)
    }

    /// Counts a failed call of writing.
    pub fn write_fault(&mut self) -> Failed
        ensures fault { result ≡ Failed.Fault }
        ensures counted { self.new ≡ with_write_fault self.old }
    {
        counted_fault(&mut self.writing)
    }
}

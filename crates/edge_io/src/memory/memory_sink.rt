ghost use Rattle.std.specs.Prelude.{◌≡◌, ◌<◌, ◌≤◌, [], true, length, IfOk};
ghost use Rattle.edge_io.specs.Calls.{with_call, IsDue, FailsWhere};
ghost use Rattle.edge_io.specs.Counts.{HasCause, with_fault};
ghost use Rattle.edge_io.specs.Sink.{Says};

use crate::memory::calls::NumberedCalls;
use crate::{Failed, Sink, counted_fault};
use std::alloc::Global;

/// Text in memory. It tells its bytes, and fails at the calls whose numbers it was given and at no other.
#[derive(Drop)]
pub struct MemorySink {
    text: Vec<u8>,
    calls: NumberedCalls,
    faults: u64,
}

impl MemorySink {
    ghost use Rattle.edge_io.specs.Memory.{sink_written, sink_faults, sink_calls};

    /// An empty sink. The calls of `fails` are numbered from 1.
    pub fn new(alloc: Global, fails: Vec<u64>) -> MemorySink
        ensures written { sink_written result ≡ [] }
        ensures faults { sink_faults result ≡ 0 }
        ensures calls { sink_calls result ≡ record { made = 0; to_fail = fails.items } }
    {
        MemorySink {
            text: Vec::new(alloc),
            calls: NumberedCalls::new(fails),
            faults: 0,
        }
    }

    /// The bytes that were written.
    pub fn text(&self) -> &[u8]
        ensures { result.now ≡ sink_written self.now }
    {
        self.text.as_slice()
    }

    /// How many calls were made, up to the greatest number of 64 bits.
    pub fn calls(&self) -> u64
        ensures { result ≡ (sink_calls self.now).made }
    {
        self.calls.made()
    }
}

impl Sink for MemorySink {
    ghost use Rattle.edge_io.specs.Memory.{sink_written, sink_faults, sink_calls};

    ghost tells = { true };

    ghost written = { sink_written };

    ghost faults = { sink_faults };

    ghost needs_memory = { true };

    fn write(&mut self, bytes: &[u8]) -> Result<usize, Failed>
        ensures counted { sink_calls self.new ≡ with_call (sink_calls self.old) }
        ensures fails { FailsWhere (IsDue (sink_calls self.new)) result }

        // What each sink promises.
        ensures bound { IfOk result (λ n. n ≤ length bytes.now) }
        ensures some { IfOk result (λ n. 0 < length bytes.now → 0 < n) }
        ensures told { Says (sink_written self.old) (sink_written self.new) bytes.now result }
        ensures cause { HasCause with_fault (sink_faults self.old) (sink_faults self.new) result }
    {
        if self.calls.next_fails() {
            return Err(counted_fault(&mut self.faults));
        }
        self.text.extend_from_slice(bytes)?;
        Ok(bytes.len())
    }
}

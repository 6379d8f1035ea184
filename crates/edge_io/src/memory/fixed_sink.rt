ghost use Rattle.std.specs.Prelude.{◌≡◌, ◌<◌, ◌≤◌, ◌+◌, ◌++◌, [], length, IfOk, IsErrOf, Ok, vec_len, vec_capacity};
ghost use Rattle.edge_io.specs.Counts.{HasCause, with_fault};
ghost use Rattle.edge_io.specs.Sink.{Says};
ghost use Rattle.edge_io.specs.declared.outside.Failed.TheVariants.{OutOfMemory};

use crate::{Failed, Sink, counted_fault};
use std::alloc::{AllocError, Global};

/// Text in memory that was taken as the sink was made. It tells its bytes, and is never out of memory: a write that is
/// longer than the room that is left is a fault, and takes nothing.
#[derive(Drop)]
pub struct FixedSink {
    text: Vec<u8>,
    room: usize,
    faults: u64,
    ghost within: { vec_len text ≤ room },
    ghost has_room: { room ≤ vec_capacity text },
}

// Adds bytes for which there is room.
fn push_all(text: &mut Vec<u8>, bytes: &[u8])
    requires { vec_len text.old + length bytes.now ≤ vec_capacity text.old }
    ensures items { text.new.items ≡ text.old.items ++ bytes.now }
    ensures len { vec_len text.new ≡ vec_len text.old + length bytes.now }
    ensures capacity { vec_capacity text.new ≡ vec_capacity text.old }
{
    'bytes: for byte in bytes {
        text.push_reserved(*byte);
    }
}

impl FixedSink {
    ghost use Rattle.edge_io.specs.Memory.{fixed_written, fixed_faults, fixed_room};

    /// An empty sink with room for so many bytes; there may be no memory for them.
    pub fn new(alloc: Global, room: usize) -> Result<FixedSink, AllocError>
        ensures written { IfOk result (λ s. fixed_written s ≡ []) }
        ensures faults { IfOk result (λ s. fixed_faults s ≡ 0) }
        ensures room { IfOk result (λ s. fixed_room s ≡ room) }
    {
        Ok(FixedSink {
            text: Vec::with_capacity(alloc, room)?,
            room,
            faults: 0,
        })
    }

    /// The bytes that were written.
    pub fn text(&self) -> &[u8]
        ensures { result.now ≡ fixed_written self.now }
    {
        self.text.as_slice()
    }
}

impl Sink for FixedSink {
    ghost use Rattle.std.specs.Prelude.{true, false};
    ghost use Rattle.edge_io.specs.Memory.{fixed_written, fixed_faults, fixed_room};

    ghost tells = { true };

    ghost written = { fixed_written };

    ghost faults = { fixed_faults };

    ghost needs_memory = { false };

    fn write(&mut self, bytes: &[u8]) -> Result<usize, Failed>
        ensures room { fixed_room self.new ≡ fixed_room self.old }
        ensures within { length (fixed_written self.old) + length bytes.now ≤ fixed_room self.old →
            result ≡ Ok (length bytes.now) }

        // What each sink promises.
        ensures bound { IfOk result (λ n. n ≤ length bytes.now) }
        ensures some { IfOk result (λ n. 0 < length bytes.now → 0 < n) }
        ensures told { Says (fixed_written self.old) (fixed_written self.new) bytes.now result }
        ensures memory { ¬ IsErrOf result OutOfMemory }
        ensures cause { HasCause with_fault (fixed_faults self.old) (fixed_faults self.new) result }
    {
        if bytes.len() > self.room - self.text.len() {
            return Err(counted_fault(&mut self.faults));
        }
        push_all(&mut self.text, bytes);
        Ok(bytes.len())
    }
}

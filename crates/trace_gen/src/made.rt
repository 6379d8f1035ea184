//! All that a number makes.
ghost use Rattle.std.specs.Prelude.{◌≡◌, ◌≤◌, [], ◌∷◌, length, map, IfOk};
ghost use Rattle.spec_input.specs.Made.{ports, edits_made, trace_made, traces_made};
ghost use Rattle.trace_gen.specs.Made.{trace_view, most_edit_bytes, most_trace_bytes, bytes_of_all};

use crate::draws::{Draws, PORTS, SUBNETS};
use crate::edits::edits_made;
use crate::packets::{FRAME_LENGTH, draw_packet, push_record};
use pcap_files::format::{HEADER_LENGTH, RECORD_HEADER_LENGTH, SECOND, header};
use std::alloc::{AllocError, Global};

const FRAMES_OF_PORT: u32 = 5000;

const SUBNET_DRAWS: u32 = 3;

const FRAME_DRAWS: u32 = 5;

// A frame comes in each millisecond. In nanoseconds.
const MILLISECOND: u64 = 1_000_000;

// How many bytes the trace of a port has.
const TRACE_LENGTH: usize = HEADER_LENGTH
    + FRAMES_OF_PORT as usize * (RECORD_HEADER_LENGTH + FRAME_LENGTH as usize);

/// A trace, and the port at which its frames come in.
#[derive(Drop)]
pub struct MadeTrace {
    /// The port, from 1.
    pub port: u16,
    /// The bytes of the capture file.
    pub bytes: Vec<u8>,
}

/// What a number makes.
#[derive(Drop)]
pub struct Made {
    /// The bytes of the file of edits.
    pub edits: Vec<u8>,
    /// The traces of the ports, in the order of these.
    pub traces: Vec<MadeTrace>,
}

// The trace of a port. Its frames are every fourth of all, and the draws of the others are passed over.
fn trace_made(alloc: Global, number: u32, port: u32) -> Result<Vec<u8>, AllocError>
    requires first { 1 ≤ port }
    requires last { port ≤ ports }
    ensures { IfOk result (λ bytes. bytes.items ≡ trace_made number port) }
{
    let mut bytes = Vec::with_capacity(alloc, TRACE_LENGTH)?;
    bytes.extend_from_slice(&header(false))?;
    let mut draws = Draws::of(number);
    draws.pass(SUBNET_DRAWS * SUBNETS + FRAME_DRAWS * (port - 1));
    'frames: for n in 0..FRAMES_OF_PORT {
        let place = PORTS * n + (port - 1);
        let packet = draw_packet(&mut draws);
        push_record(&mut bytes, SECOND + u64::from(place) * MILLISECOND, packet)?;
        draws.pass(FRAME_DRAWS * (PORTS - 1));
    }
    Ok(bytes)
}

// The traces of all ports.
fn traces_made(alloc: Global, number: u32) -> Result<Vec<MadeTrace>, AllocError>
    ensures { IfOk result (λ traces. map trace_view traces.items ≡ traces_made number) }
{
    let mut traces = Vec::with_capacity(alloc, PORTS as usize)?;
    'ports: for place in 0..PORTS {
        let port = place + 1;
        let bytes = trace_made(alloc, number, port)?;
        traces.push(MadeTrace {
            port: port as u16,
            bytes,
        })?;
    }
    Ok(traces)
}

/// The file of edits and the traces that a number makes: about 6 kB of edits, and four traces of 5,000 frames and
/// 290,024 bytes each. Memory is taken for these, and none is left taken where there isn't enough.
///
/// # Errors
/// `AllocError` where there is no memory.
pub fn generate(alloc: Global, number: u32) -> Result<Made, AllocError>
    ensures edits { IfOk result (λ made. made.edits.items ≡ edits_made number) }
    ensures traces { IfOk result (λ made. map trace_view made.traces.items ≡ traces_made number) }
    ensures edit_limit { IfOk result (λ made. length made.edits.items ≤ most_edit_bytes) }
    ensures trace_limit { IfOk result (λ made.
        bytes_of_all (map trace_view made.traces.items) ≤ most_trace_bytes) }
    ensures ports { IfOk result (λ made.
        map (λ trace. trace.port) made.traces.items ≡ 1 ∷ 2 ∷ 3 ∷ 4 ∷ []) }
{
    let edits = edits_made(alloc, number)?;
    let traces = traces_made(alloc, number)?;
    Ok(Made { edits, traces })
}

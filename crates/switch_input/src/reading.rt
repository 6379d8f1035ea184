//! Files read whole, and the traces of the ports.
ghost use Rattle.std.specs.Prelude.{◌≡◌, ◌<◌, ◌≤◌, [], ◌∷◌, length, Ok, Err, All, Contains, IsTrue, IsSomeAnd, IfOk, IfErr, Some};
ghost use Rattle.edge_io.specs.declared.outside.InUse.TheVariants.{Nothing};
ghost use Rattle.spec_run.specs.Limits.{most_trace_bytes, most_frames};
ghost use Rattle.spec_run.specs.Verdict.{refused_trace, file_in, trace_in, traces_in, trace_names, traces_opened};
ghost use Rattle.command_words.specs.PortViews.{port_view, ports_view};
ghost use Rattle.switch_input.specs.InputViews.{trace_view};
ghost use Rattle.switch_input.specs.Reading.{ReadsFiles};
ghost use Rattle.switch_input.specs.Refused.{fault_view, IfInput, IfReadFault, TakesWords, TellsNoFault, Explains, ending_of};

use crate::refusals::{InputFault, InputRefusal, MOST_FRAMES, MOST_TRACE_BYTES};
use command_words::PortWord;
use edge_io::{ReadFault, Shelf, read_all};
use pcap_files::reader::{PcapFault, Trace, read_trace};
use spec_run::Quantity;
use std::alloc::Global;

/// Reads a file whole. One that has more bytes than `most` is above the limit of this quantity.
pub fn read_file<'a, S: Shelf>(
    alloc: Global,
    shelf: &mut S,
    name: &'a str,
    most: usize,
    of: Quantity,
) -> Result<Vec<u8>, InputRefusal<'a>>
    requires { S.in_use shelf.old ≡ Nothing }
    ensures in_use { S.in_use shelf.new ≡ Nothing }
    ensures reads { ReadsFiles S.Shelf shelf.old shelf.new (name.now ∷ []) (ending_of result) }
    ensures few { IfOk result (λ v. length v.items ≤ most) }
    ensures bytes { IsTrue S.tells → IfOk result (λ v. (S.told shelf.old).holds name.now ≡ Some v.items) }
    ensures too_long { IfErr result (λ r. IfInput r (λ fault. fault ≡ InputFault.Limit of)) }
    ensures has_more { IsTrue S.tells → IfErr result (λ r. IfInput r
        (λ _. IsSomeAnd ((S.told shelf.old).holds name.now) (λ b. most < length b))) }
    ensures fault { IfErr result (λ r. IfReadFault r (λ n. n ≡ name.now)) }
{
    match read_all(alloc, shelf, name, most) {
        Ok(bytes) => Ok(bytes),
        Err(ReadFault::Fault) => Err(InputRefusal::ReadFault { name }),
        Err(ReadFault::Over) => Err(InputRefusal::Input(InputFault::Limit(of))),
        Err(ReadFault::OutOfMemory) => Err(InputRefusal::OutOfMemory),
    }
}

/// A trace, and how many bytes its file has.
#[derive(Drop)]
pub struct TraceFile {
    pub size: usize,
    pub trace: Trace,
}

// What becomes of a run whose trace of this name has this fault.
fn refused(name: &str, fault: PcapFault) -> InputRefusal<'_>
    ensures input { IfInput result (λ told. fault_view told ≡ refused_trace name.now fault) }
    ensures no_fault { TellsNoFault result }
    ensures taken { TakesWords result }
    ensures no_memory { fault ≡ PcapFault.OutOfMemory → result ≡ InputRefusal.OutOfMemory }
{
    match fault {
        PcapFault::OutOfMemory => InputRefusal::OutOfMemory,
        PcapFault::TooManyFrames => InputRefusal::Input(InputFault::Limit(Quantity::Frames)),
        fault => InputRefusal::Input(InputFault::Trace { name, fault }),
    }
}

// Reads a trace for which so much room is left.
fn read_trace_file<'a, S: Shelf>(
    alloc: Global,
    shelf: &mut S,
    name: &'a str,
    bytes_left: usize,
    frames_left: usize,
) -> Result<TraceFile, InputRefusal<'a>>
    requires { S.in_use shelf.old ≡ Nothing }
    ensures in_use { S.in_use shelf.new ≡ Nothing }
    ensures reads { ReadsFiles S.Shelf shelf.old shelf.new (name.now ∷ []) (ending_of result) }
    ensures ok { IsTrue S.tells → IfOk result (λ t.
        file_in (S.told shelf.old).holds bytes_left frames_left name.now ≡ Ok (trace_view t)) }
    ensures frames { IfOk result (λ t. length t.trace.frames ≤ frames_left) }
    ensures size { IfOk result (λ t. t.size ≤ bytes_left) }
    ensures err { IsTrue S.tells
        → IfErr result (Explains (file_in (S.told shelf.old).holds bytes_left frames_left name.now)) }
    ensures fault { IfErr result (λ r. IfReadFault r (λ n. n ≡ name.now)) }
    ensures taken { IfErr result TakesWords }
{
    let bytes = read_file(alloc, shelf, name, bytes_left, Quantity::TraceBytes)?;
    let size = bytes.len();
    match read_trace(alloc, bytes, frames_left) {
        Ok(trace) => Ok(TraceFile { size, trace }),
        Err(fault) => Err(refused(name, fault)),
    }
}

// Reads the trace of a port, if it has one.
fn read_port_trace<'a, S: Shelf>(
    alloc: Global,
    shelf: &mut S,
    w: &PortWord<'a>,
    bytes_left: usize,
    frames_left: usize,
) -> Result<TraceFile, InputRefusal<'a>>
    requires { S.in_use shelf.old ≡ Nothing }
    ensures in_use { S.in_use shelf.new ≡ Nothing }
    ensures reads { ReadsFiles S.Shelf shelf.old shelf.new (trace_names (port_view w.now)) (ending_of result) }
    ensures ok { IsTrue S.tells → IfOk result (λ t.
        trace_in (S.told shelf.old).holds bytes_left frames_left (port_view w.now) ≡ Ok (trace_view t)) }
    ensures frames { IfOk result (λ t. length t.trace.frames ≤ frames_left) }
    ensures size { IfOk result (λ t. t.size ≤ bytes_left) }
    ensures err { IsTrue S.tells → IfErr result (Explains
        (trace_in (S.told shelf.old).holds bytes_left frames_left (port_view w.now))) }
    ensures fault { IfErr result (λ r. IfReadFault r (Contains (trace_names (port_view w.now)))) }
    ensures taken { IfErr result TakesWords }
{
    if w.file.is_empty() {
        return Ok(TraceFile {
            size: 0,
            trace: Trace::empty(alloc),
        });
    }
    read_trace_file(alloc, shelf, w.file, bytes_left, frames_left)
}

/// Reads the traces of the ports, an empty one where a port has none. Each takes of the room that those before it left.
pub fn read_traces<'a, S: Shelf>(
    alloc: Global,
    shelf: &mut S,
    ports: &[PortWord<'a>],
) -> Result<Vec<Trace>, InputRefusal<'a>>
    requires { S.in_use shelf.old ≡ Nothing }
    ensures in_use { S.in_use shelf.new ≡ Nothing }
    ensures reads { let names = traces_opened (S.told shelf.old).holds most_trace_bytes most_frames
        (ports_view ports.now) in
        ReadsFiles S.Shelf shelf.old shelf.new names (ending_of result) }
    ensures one_each { IfOk result (λ traces. length traces.items ≡ length ports.now) }
    ensures few_frames { IfOk result (λ traces. All (λ t. length t.frames ≤ most_frames) traces.items) }
    ensures ok { IsTrue S.tells
        → IfOk result (λ traces. traces_in (S.told shelf.old).holds (ports_view ports.now) ≡ Ok traces.items) }
    ensures err { IsTrue S.tells
        → IfErr result (Explains (traces_in (S.told shelf.old).holds (ports_view ports.now))) }
    ensures taken { IfErr result TakesWords }
{
    let mut traces = Vec::new(alloc);
    let mut bytes_left = MOST_TRACE_BYTES;
    let mut frames_left = MOST_FRAMES;
    'ports: for w in ports {
        let read = read_port_trace(alloc, shelf, w, bytes_left, frames_left)?;
        bytes_left -= read.size;
        frames_left -= read.trace.len();
        traces.push(read.trace)?;
    }
    Ok(traces)
}

//! Frames that came in one after the other at a port, and are only sent on to another: they are written at once.
ghost use Rattle.std.specs.Prelude.{◌≡◌, ◌+◌, ◌-◌, ◌<◌, ◌≤◌, IsTrue, length, take, drop};
ghost use Rattle.std.specs.List.{flat_map};
ghost use Rattle.spec_pcap.specs.Pcap.{record_of};
ghost use Rattle.spec_case.specs.Run.{frames_of};
ghost use Rattle.spec_case.specs.Arrivals.{in_order, arrivals as came_in};
ghost use Rattle.spec_run.specs.Outputs.{sent_to};
ghost use Rattle.edge_io.specs.declared.outside.InUse.TheVariants.{Created};
ghost use Rattle.edge_io.specs.Written.{WritesAll};
ghost use Rattle.run_case.specs.Places.{HasPort};
ghost use Rattle.egress_capture.specs.Filters.{AreFilters};
ghost use Rattle.egress_capture.specs.Batches.{Follows, IsNext, IsBatch, arrivals_at};

use crate::port_filter::{PortFilter, next_with_bit};
use edge_io::{Failed, Shelf, write_all};
use pcap_files::writer::PcapWriter;
use run_boards::Finished;
use run_case::{Case, RunData};
use spec_case::Arrival;

/// How many frames a batch has at most.
const BATCH: u32 = 256;

// Whether an arrival is of the frame so many places after the first one's, at the same port.
fn follows(first: Arrival, arrival: Arrival, count: u32) -> bool
    ensures { IsTrue result → Follows first arrival count }
{
    arrival.port == first.port
        && u64::from(arrival.place) == u64::from(first.place) + u64::from(count)
}

// Whether an arrival comes next after so many frames of a batch, the first of which stands at another place.
fn is_next(
    came: &[Arrival],
    filters: &[PortFilter],
    at: usize,
    place: usize,
    count: u32,
    port: u16,
) -> bool
    requires at { at < length came.now }
    requires place { place < length came.now }
    requires filters { length filters.now ≡ length came.now }
    ensures { IsTrue result → IsNext came.now filters.now port at place count }
{
    filters[place].only_sends_to(port) && follows(came[at], came[place], count)
}

/// Frames that are sent to a port at once.
#[derive(Clone, Copy)]
pub struct Batch {
    /// How many frames they are.
    pub count: u32,
    /// The place of the arrival after them, and after those behind them that the port doesn't get.
    pub end: usize,
}

/// The batch of a port from an arrival in their list on: at most `BATCH` frames, and none where that one isn't only sent
/// on. What the port doesn't get is passed over.
pub fn batch_at(came: &[Arrival], filters: &[PortFilter], at: usize, port: u16) -> Batch
    requires at { at < length came.now }
    requires filters { length filters.now ≡ length came.now }
    ensures few { at + result.count ≤ result.end }
    ensures within { result.end ≤ length came.now }
    ensures batch { IsBatch came.now filters.now port at (result.end - at) result.count }
{
    let mut count = 0;
    let mut end = at;
    'frames: while count < BATCH
        && end < came.len()
        && is_next(came, filters, at, end, count, port)
    {
        count += 1;
        end = next_with_bit(filters, end + 1, port);
    }
    Batch { count, end }
}

// Writes frames of a port, from a place on, as they came in: the records of as many at once as stand in its trace one after
// the other, as they are written.
fn write_frames<C: Case, S: Shelf>(
    shelf: &mut S,
    writer: &mut PcapWriter,
    run: &RunData<C>,
    first: Arrival,
    count: u32,
    nanos: bool,
) -> Result<(), Failed>
    requires in_use { S.in_use shelf.old ≡ Created }
    requires unit { writer.old ≡ nanos }
    requires port { HasPort C.run.ports first.port }
    requires first { 1 ≤ first.place }
    requires last { first.place + count ≤ length (frames_of C.run first.port) + 1 }
    ensures nanos { writer.new ≡ writer.old }
    ensures writes { let frames = take count (drop (first.place - 1) (frames_of C.run first.port)) in
        WritesAll S.Shelf shelf.old shelf.new (flat_map (record_of nanos) frames) result }
{
    // The trace has so few frames that a place after them is a number of 32 bits.
    let _ = run.frames(first.port);
    let mut done: u32 = 0;
    'places: while done < count {
        let place = first.place + done;
        let (written, bytes) = run.records(first.port, place, count - done, nanos);
        if written > 0 {
            write_all(shelf, bytes)?;
            done += written;
            continue;
        }
        let time = run.time(first.port, place);
        writer.frame(shelf, time, run.frame(first.port, place))?;
        done += 1;
    }
    Ok(())
}

/// Writes the frames of a batch, from one in the list of the arrivals on.
pub fn send_batch<C: Case, S: Shelf>(
    shelf: &mut S,
    writer: &mut PcapWriter,
    run: &RunData<C>,
    finished: &Finished<C>,
    filters: &[PortFilter],
    at: usize,
    batch: Batch,
    port: u16,
    nanos: bool,
) -> Result<(), Failed>
    requires in_use { S.in_use shelf.old ≡ Created }
    requires unit { writer.old ≡ nanos }
    requires filters { AreFilters C.run finished.now (in_order (came_in C.run)) filters.now }
    requires some { 1 ≤ batch.count }
    requires few { at + batch.count ≤ batch.end }
    requires within { batch.end ≤ length (in_order (came_in C.run)) }
    requires batch { IsBatch (in_order (came_in C.run)) filters.now port at (batch.end - at) batch.count }
    ensures nanos { writer.new ≡ writer.old }
    ensures writes { let sent = flat_map (sent_to C.run finished.now port) (arrivals_at C.run at (batch.end - at)) in
        WritesAll S.Shelf shelf.old shelf.new (flat_map (record_of nanos) sent) result }
{
    let first = finished.arrivals()[at];
    write_frames(shelf, writer, run, first, batch.count, nanos)
}

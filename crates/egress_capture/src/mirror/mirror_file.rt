ghost use Rattle.std.specs.Prelude.{◌≡◌, ◌≤◌, length};
ghost use Rattle.std.specs.List.{flat_map};
ghost use Rattle.spec_pcap.specs.Pcap.{record_of, file_of};
ghost use Rattle.spec_case.specs.Run.{frame_at, is_nanos};
ghost use Rattle.spec_case.specs.Arrivals.{in_order, arrivals as came_in};
ghost use Rattle.spec_run.specs.Journals.{actions_for};
ghost use Rattle.spec_run.specs.Mirrored.{takes_in, copied, copies};
ghost use Rattle.edge_io.specs.declared.outside.InUse.TheVariants.{Nothing, Created};
ghost use Rattle.edge_io.specs.Written.{WritesAll, WritesFile};
ghost use Rattle.run_boards.specs.Arrivals.{IsArrival};
ghost use Rattle.egress_capture.specs.Filters.{PassesAll, AreFilters};
ghost use Rattle.egress_capture.specs.Sending.{record_if};
ghost use Rattle.egress_capture.specs.Copies.{first_copy};

use crate::{PortFilter, send_first};
use action_exec::FrameBuffer;
use edge_io::{Failed, Shelf, write_file};
use pcap_files::writer::PcapWriter;
use run_boards::Finished;
use run_case::{Case, RunData};
use spec_case::Arrival;
use spec_input::mirrors::Mirror;
use std::alloc::Global;

// Whether a mirror copies what comes in at a port.
fn takes_in(mirror: &Mirror, port: u16) -> bool
    ensures { result ≡ takes_in mirror.now port }
{
    mirror.all || mirror.src.contains(&port)
}

// Writes an arrived frame as it came in.
fn copy_received<C: Case, S: Shelf>(
    shelf: &mut S,
    writer: &mut PcapWriter,
    run: &RunData<C>,
    finished: &Finished<C>,
    arrival: Arrival,
) -> Result<(), Failed>
    requires in_use { S.in_use shelf.old ≡ Created }
    requires there { IsArrival C.run arrival }
    ensures nanos { writer.new ≡ writer.old }
    ensures writes { let frame = frame_at C.run arrival.port arrival.place in
        WritesAll S.Shelf shelf.old shelf.new (record_of writer.old frame) result }
{
    let frame = finished.frame(run, arrival);
    writer.frame(shelf, frame.time, frame.bytes)
}

// Writes an arrived frame as it first goes out at one of these ports, if it goes out at one. Where its filter has no bit of
// them, nothing of it is looked at.
fn copy_sent<C: Case, S: Shelf>(
    shelf: &mut S,
    writer: &mut PcapWriter,
    ports: &[u16],
    run: &RunData<C>,
    finished: &Finished<C>,
    arrival: Arrival,
    filter: PortFilter,
    buffer: &mut FrameBuffer,
) -> Result<(), Failed>
    requires in_use { S.in_use shelf.old ≡ Created }
    requires there { IsArrival C.run arrival }
    requires filter { PassesAll (actions_for C.run finished.now arrival.port arrival.place) filter }
    ensures nanos { writer.new ≡ writer.old }
    ensures writes { let copy = first_copy C.run finished.now ports.now arrival in
        WritesAll S.Shelf shelf.old shelf.new (record_if writer.old copy) result }
{
    if !filter.may_send_to_one(ports) {
        return Ok(());
    }
    let frame = finished.frame(run, arrival);
    send_first(
        shelf,
        writer,
        frame.time,
        frame.bytes,
        frame.actions,
        ports,
        buffer,
    )
}

// Writes the copy of an arrived frame, if the mirror has one.
fn copy_arrival<C: Case, S: Shelf>(
    shelf: &mut S,
    writer: &mut PcapWriter,
    mirror: &Mirror,
    run: &RunData<C>,
    finished: &Finished<C>,
    arrival: Arrival,
    filter: PortFilter,
    buffer: &mut FrameBuffer,
) -> Result<(), Failed>
    requires in_use { S.in_use shelf.old ≡ Created }
    requires there { IsArrival C.run arrival }
    requires filter { PassesAll (actions_for C.run finished.now arrival.port arrival.place) filter }
    ensures nanos { writer.new ≡ writer.old }
    ensures writes { let copy = copied C.run finished.now mirror.now arrival in
        WritesAll S.Shelf shelf.old shelf.new (record_if writer.old copy) result }
{
    if takes_in(mirror, arrival.port) {
        return copy_received(shelf, writer, run, finished, arrival);
    }
    let ports = mirror.dst.as_slice();
    copy_sent(shelf, writer, ports, run, finished, arrival, filter, buffer)
}

// Writes the copies of all frames, in the order of their arrivals.
fn copy_arrivals<C: Case, S: Shelf>(
    alloc: Global,
    shelf: &mut S,
    writer: &mut PcapWriter,
    mirror: &Mirror,
    run: &RunData<C>,
    finished: &Finished<C>,
    filters: &[PortFilter],
) -> Result<(), Failed>
    requires in_use { S.in_use shelf.old ≡ Created }
    requires filters { AreFilters C.run finished.now (in_order (came_in C.run)) filters.now }
    ensures { let bytes = flat_map (λ a. record_if writer.old (copied C.run finished.now mirror.now a)) (in_order (came_in C.run)) in
        WritesAll S.Shelf shelf.old shelf.new bytes result }
{
    let came = finished.arrivals();
    let mut buffer = FrameBuffer::new(alloc);
    'arrivals: for at in 0..came.len() {
        copy_arrival(
            shelf,
            writer,
            mirror,
            run,
            finished,
            came[at],
            filters[at],
            &mut buffer,
        )?;
    }
    Ok(())
}

// Writes the header, and the copies of all frames.
fn write_copies<C: Case, S: Shelf>(
    alloc: Global,
    shelf: &mut S,
    mirror: &Mirror,
    run: &RunData<C>,
    finished: &Finished<C>,
    filters: &[PortFilter],
) -> Result<(), Failed>
    requires in_use { S.in_use shelf.old ≡ Created }
    requires filters { AreFilters C.run finished.now (in_order (came_in C.run)) filters.now }
    ensures { let frames = copies C.run finished.now mirror.now in
        WritesAll S.Shelf shelf.old shelf.new (file_of (is_nanos C.run) frames) result }
{
    let mut writer = PcapWriter::begin(shelf, run.nanos())?;
    copy_arrivals(alloc, shelf, &mut writer, mirror, run, finished, filters)
}

/// Writes the capture file of a mirror under a name: what the mirror copies of the decided frames of a run, each frame at
/// most once, in the order of their arrivals. Its times are in nanoseconds where those of a trace of the run are.
///
/// A frame that its actions rewrite before the output that is copied is copied into a buffer, which is kept from frame to
/// frame; no other one is.
///
/// # Errors
///
/// - `Fault`: the shelf failed in creating, writing or closing the file, and its count of writing rose.
/// - `OutOfMemory`: there was no memory for the shelf, or for the copy of a frame.
///
/// After an error the file has a prefix of its bytes, or was not created; it may still be in use.
pub fn write_mirror<C: Case, S: Shelf>(
    alloc: Global,
    shelf: &mut S,
    name: &str,
    mirror: &Mirror,
    run: &RunData<C>,
    finished: &Finished<C>,
    filters: &[PortFilter],
) -> Result<(), Failed>
    requires in_use { S.in_use shelf.old ≡ Nothing }
    requires filters { AreFilters C.run finished.now (in_order (came_in C.run)) filters.now }
    ensures file { let bytes = file_of (is_nanos C.run) (copies C.run finished.now mirror.now) in
        WritesFile S.Shelf shelf.old shelf.new (name.now, bytes) result }

    // There is at most one copy for each frame.
    ensures once { length (copies C.run finished.now mirror.now)
        ≤ length (in_order (came_in C.run)) }
{
    write_file(
        shelf,
        name,
        |shelf: &mut S| -> Result<(), Failed>
            requires in_use { S.in_use shelf.old ≡ Created }
            requires filters { AreFilters C.run finished.now (in_order (came_in C.run))
                filters.now }
            ensures { let frames = copies C.run finished.entry.now mirror.entry.now in
                WritesAll S.Shelf shelf.old shelf.new (file_of (is_nanos C.run) frames) result }
        { write_copies(alloc, shelf, mirror, run, finished, filters) },
    )
}

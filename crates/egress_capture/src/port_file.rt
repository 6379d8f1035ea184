ghost use Rattle.std.specs.Prelude.{◌≡◌};
ghost use Rattle.std.specs.List.{flat_map};
ghost use Rattle.spec_pcap.specs.Pcap.{record_of, file_of};
ghost use Rattle.spec_case.specs.Run.{is_nanos};
ghost use Rattle.spec_case.specs.Arrivals.{in_order, arrivals as came_in};
ghost use Rattle.spec_run.specs.Outputs.{frames_out, sent_to};
ghost use Rattle.edge_io.specs.declared.outside.InUse.TheVariants.{Nothing, Created};
ghost use Rattle.edge_io.specs.Written.{WritesAll, WritesFile};
ghost use Rattle.run_boards.specs.Arrivals.{IsArrival};
ghost use Rattle.egress_capture.specs.Filters.{AreFilters};

use crate::batch::{batch_at, send_batch};
use crate::port_filter::{PortFilter, next_with_bit};
use crate::sending::send;
use action_exec::FrameBuffer;
use edge_io::{Failed, Shelf, write_file};
use pcap_files::writer::PcapWriter;
use run_boards::Finished;
use run_case::{Case, RunData};
use spec_case::Arrival;
use std::alloc::Global;

// Writes an arrived frame as often as what was decided of it sends it out at the port.
fn send_decided<C: Case, S: Shelf>(
    shelf: &mut S,
    writer: &mut PcapWriter,
    run: &RunData<C>,
    finished: &Finished<C>,
    arrival: Arrival,
    port: u16,
    buffer: &mut FrameBuffer,
) -> Result<(), Failed>
    requires in_use { S.in_use shelf.old ≡ Created }
    requires there { IsArrival C.run arrival }
    ensures nanos { writer.new ≡ writer.old }
    ensures writes { let frames = sent_to C.run finished.now port arrival in
        WritesAll S.Shelf shelf.old shelf.new (flat_map (record_of writer.old) frames) result }
{
    let frame = finished.frame(run, arrival);
    send(
        shelf,
        writer,
        frame.time,
        frame.bytes,
        frame.actions,
        port,
        buffer,
    )
}

// Writes the header, and what the decided frames of a run send out at the port.
fn write_frames<C: Case, S: Shelf>(
    alloc: Global,
    shelf: &mut S,
    port: u16,
    run: &RunData<C>,
    finished: &Finished<C>,
    filters: &[PortFilter],
) -> Result<(), Failed>
    requires in_use { S.in_use shelf.old ≡ Created }
    requires filters { AreFilters C.run finished.now (in_order (came_in C.run)) filters.now }
    ensures { let frames = frames_out C.run finished.now port in
        WritesAll S.Shelf shelf.old shelf.new (file_of (is_nanos C.run) frames) result }
{
    let came = finished.arrivals();
    let mut buffer = FrameBuffer::new(alloc);
    let nanos = run.nanos();
    let mut writer = PcapWriter::begin(shelf, nanos)?;
    let mut at = next_with_bit(filters, 0, port);
    'arrivals: while at < came.len() {
        let batch = batch_at(came, filters, at, port);
        if batch.count > 0 {
            send_batch(
                shelf,
                &mut writer,
                run,
                finished,
                filters,
                at,
                batch,
                port,
                nanos,
            )?;
            at = batch.end;
            continue;
        }
        send_decided(
            shelf,
            &mut writer,
            run,
            finished,
            came[at],
            port,
            &mut buffer,
        )?;
        at = next_with_bit(filters, at + 1, port);
    }
    Ok(())
}

/// Writes the capture file of a port under a name: what the decided frames of a run send out at it, in the order of
/// their arrivals. Its times are in nanoseconds where those of a trace of the run are.
///
/// A frame that its actions rewrite is copied into a buffer, which is kept from frame to frame; no other one is.
///
/// # Errors
///
/// - `Fault`: the shelf failed in creating, writing or closing the file, and its count of writing rose.
/// - `OutOfMemory`: there was no memory for the shelf, or for the copy of a frame.
///
/// After an error the file has a prefix of its bytes, or was not created; it may still be in use.
pub fn write_port<C: Case, S: Shelf>(
    alloc: Global,
    shelf: &mut S,
    name: &str,
    port: u16,
    run: &RunData<C>,
    finished: &Finished<C>,
    filters: &[PortFilter],
) -> Result<(), Failed>
    requires in_use { S.in_use shelf.old ≡ Nothing }
    requires filters { AreFilters C.run finished.now (in_order (came_in C.run)) filters.now }
    ensures { let bytes = file_of (is_nanos C.run) (frames_out C.run finished.now port) in
        WritesFile S.Shelf shelf.old shelf.new (name.now, bytes) result }
{
    write_file(
        shelf,
        name,
        |shelf: &mut S| -> Result<(), Failed>
            requires in_use { S.in_use shelf.old ≡ Created }
            requires filters { AreFilters C.run finished.now (in_order (came_in C.run))
                filters.now }
            ensures { let frames = frames_out C.run finished.entry.now port in
                WritesAll S.Shelf shelf.old shelf.new (file_of (is_nanos C.run) frames) result }
        { write_frames(alloc, shelf, port, run, finished, filters) },
    )
}

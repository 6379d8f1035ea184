//! The flows of a finished run.
ghost use Rattle.std.specs.Prelude.{◌≡◌, ◌/◌, ◌<◌, ◌^◌, [], All, IfOk, OnOk, fold};
ghost use Rattle.spec_pcap.specs.Pcap.{second};
ghost use Rattle.spec_run.specs.Journals.{actions_for};
ghost use Rattle.spec_netflow.specs.Flows.{came_in, time_at, first_time, last_time, uptime, export_time, packet_of, with_packet, flows};
ghost use Rattle.run_boards.specs.Arrivals.{IsArrival};

use crate::flow::alone;
use crate::flow_table::FlowTable;
use frame_keys::layout::{L3, layout_of};
use run_boards::Finished;
use run_case::{Case, RunData};
use spec_case::Arrival;
use spec_netflow::{ExportTime, FlowRecord};
use std::alloc::{AllocError, Global};

/// A second in nanoseconds.
const SECOND: u64 = 1_000_000_000;

/// A millisecond in nanoseconds.
const MILLISECOND: u64 = 1_000_000;

/// How many numbers 32 bits have.
const NUMBERS: u64 = 1 << 32;

// When the frame came in that has this index; 0 where there is none.
fn time_at<C: Case>(run: &RunData<C>, came: &[Arrival], index: usize) -> u64
    requires list { came.now ≡ came_in C.run }
    requires each { All (IsArrival C.run) came.now }
    ensures time { result ≡ time_at C.run index }
    ensures seconds { result / second < 2 ^ 32 }
{
    match came.get(index) {
        Some(arrival) => run.time(arrival.port, arrival.place),
        None => 0,
    }
}

// The whole milliseconds from the first frame to a time, in 32 bits.
fn uptime<C: Case>(first: u64, time: u64) -> u32
    requires { first ≡ first_time C.run }
    ensures { result ≡ uptime C.run time }
{
    (time.saturating_sub(first) / MILLISECOND % NUMBERS) as u32
}

/// When a run is exported: at the time of its last frame.
pub(crate) fn export_time<C: Case>(run: &RunData<C>, finished: &Finished<C>) -> ExportTime
    ensures { result ≡ export_time C.run }
{
    let came = finished.arrivals();
    let first = time_at(run, came, 0);
    let last = time_at(run, came, came.len().saturating_sub(1));
    ExportTime {
        uptime: uptime::<C>(first, last),
        seconds: (last / SECOND) as u32,
        nanoseconds: (last % SECOND) as u32,
    }
}

// Adds the packet of an arrived frame, if it is one of IPv4.
fn add_packet<C: Case>(
    table: &mut FlowTable,
    run: &RunData<C>,
    finished: &Finished<C>,
    first: u64,
    arrival: Arrival,
) -> Result<(), AllocError>
    requires there { IsArrival C.run arrival }
    requires first { first ≡ first_time C.run }
    ensures { OnOk result
        (table.new ≡ fold with_packet table.old (packet_of C.run (actions_for C.run finished.now) arrival)) }
{
    let frame = finished.frame(run, arrival);
    let layout = layout_of(frame.bytes);
    let up = uptime::<C>(first, frame.time);
    match layout.l3 {
        L3::Ipv4(at) => table.add(alone(frame.actions, arrival.port, up, frame.bytes, &layout, at)),
        L3::None | L3::Arp(_) | L3::Ipv6(_) => Ok(()),
    }
}

// Adds the packets of a run to a table that has none yet, and gives what is told of its flows.
fn flows_by<C: Case>(
    alloc: Global,
    table: &mut FlowTable,
    run: &RunData<C>,
    finished: &Finished<C>,
) -> Result<Vec<FlowRecord>, AllocError>
    requires { table.old ≡ [] }
    ensures { IfOk result (λ v. v.items ≡ flows C.run (actions_for C.run finished.now)) }
{
    let came = finished.arrivals();
    let first = time_at(run, came, 0);
    'arrivals: for arrival in came {
        add_packet(table, run, finished, first, *arrival)?;
    }
    table.records(alloc)
}

/// The flows of a finished run, in the order of their first packets.
///
/// It takes memory for each flow; there may be none.
pub fn flows<C: Case>(
    alloc: Global,
    run: &RunData<C>,
    finished: &Finished<C>,
) -> Result<Vec<FlowRecord>, AllocError>
    ensures { IfOk result (λ v. v.items ≡ flows C.run (actions_for C.run finished.now)) }
{
    // The table is lent to what can fail, and dropped once.
    let mut table = FlowTable::new(alloc);
    let flows = flows_by(alloc, &mut table, run, finished);
    drop(table);
    flows
}

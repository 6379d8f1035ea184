//! The file of a run's flows.
ghost use Rattle.std.specs.Prelude.{◌≡◌};
ghost use Rattle.spec_run.specs.Journals.{actions_for};
ghost use Rattle.spec_netflow.specs.Datagrams.{datagrams, netflow_bytes};
ghost use Rattle.edge_io.specs.declared.outside.InUse.TheVariants.{Nothing, Created};
ghost use Rattle.edge_io.specs.Written.{WritesAll, WritesFile};

use crate::datagram::{HEADER_SIZE, MOST_RECORDS, RECORD_SIZE, fill_datagram};
use crate::run_flows::{export_time, flows};
use edge_io::{Failed, Shelf, write_all, write_file};
use run_boards::Finished;
use run_case::{Case, RunData};
use spec_netflow::{ExportTime, FlowRecord};
use std::alloc::Global;

// Writes the datagrams of these records, one after the other, each by one call.
fn write_datagrams<S: Shelf>(
    alloc: Global,
    shelf: &mut S,
    now: &ExportTime,
    records: &[FlowRecord],
) -> Result<(), Failed>
    requires { S.in_use shelf.old ≡ Created }
    ensures { WritesAll S.Shelf shelf.old shelf.new (datagrams now.now records.now) result }
{
    let mut buffer = Vec::with_capacity(alloc, HEADER_SIZE + MOST_RECORDS * RECORD_SIZE)?;
    'datagrams: for number in 0..records.len().div_ceil(MOST_RECORDS) {
        let before = number * MOST_RECORDS;
        let end = records.len().min(before + MOST_RECORDS);
        fill_datagram(&mut buffer, now, &records[before..end], before)?;
        write_all(shelf, &buffer)?;
    }
    Ok(())
}

// Writes the datagrams of the flows of a finished run.
fn write_flows<C: Case, S: Shelf>(
    alloc: Global,
    shelf: &mut S,
    run: &RunData<C>,
    finished: &Finished<C>,
) -> Result<(), Failed>
    requires { S.in_use shelf.old ≡ Created }
    ensures { let bytes = netflow_bytes C.run (actions_for C.run finished.now) in
        WritesAll S.Shelf shelf.old shelf.new bytes result }
{
    let records = flows(alloc, run, finished)?;
    write_datagrams(alloc, shelf, &export_time(run, finished), &records)
}

/// Writes the flows of a finished run to a new file of this name, as datagrams of NetFlow version 5 one after the
/// other, and closes it. A run without IPv4 packets has an empty file.
///
/// It takes memory for each flow, and for one datagram at a time.
///
/// # Errors
///
/// - `Fault`: the shelf failed in creating, writing or closing the file, and its count of writing rose.
/// - `OutOfMemory`: there was no memory for the flows or a datagram, or for the shelf.
///
/// After an error the file was not created, or has a prefix of its bytes. It may then still be in use.
pub fn write_netflow<C: Case, S: Shelf>(
    alloc: Global,
    shelf: &mut S,
    name: &str,
    run: &RunData<C>,
    finished: &Finished<C>,
) -> Result<(), Failed>
    requires in_use { S.in_use shelf.old ≡ Nothing }
    ensures file { let bytes = netflow_bytes C.run (actions_for C.run finished.now) in
        WritesFile S.Shelf shelf.old shelf.new (name.now, bytes) result }
{
    write_file(
        shelf,
        name,
        |shelf: &mut S| -> Result<(), Failed>
            requires { S.in_use shelf.old ≡ Created }
            ensures { let bytes = netflow_bytes C.run (actions_for C.run finished.entry.now) in
                WritesAll S.Shelf shelf.old shelf.new bytes result }
        { write_flows(alloc, shelf, run, finished) },
    )
}

//! The blocks of a run, and the frames in them.
ghost use Rattle.std.specs.Prelude.{◌≡◌, ◌+◌, ◌^◌, ◌<◌, [], ◌∷◌, IfOk, length, map};
ghost use Rattle.spec_tables.specs.Bundles.{AreBundles};
ghost use Rattle.spec_case.specs.Run.{edit_count, last_version};
ghost use Rattle.spec_case.specs.Blocks.{AreInOrder};
ghost use Rattle.run_case.specs.Places.{HasPort, HasPlace, IsCounted, AreCounted};

use ovs_fields::FieldId;
use pcap_files::reader::{Trace, read_trace};
use run_case::{Case, Ports, RunData};
use spec_tables::SyncPoint;
use std::alloc::{AllocError, Global};
use std::marker::Brand;
use std::process::Abort;
use std::test::Fail;

const SECOND: u64 = 1_000_000_000;

const FULL_PORT: u16 = 7;

const EMPTY_PORT: u16 = 2;

// A capture file with frames at the seconds 1, 3 and 2, from the addresses that end in these numbers; the second has
// 15 bytes, the others 14.
const FILE: [u8; 115] = [
    0xd4, 0xc3, 0xb2, 0xa1, 2, 0, 4, 0, 0, 0, 0, 0, 0, 0, 0, 0, 0, 0, 4, 0, 1, 0, 0, 0, //
    1, 0, 0, 0, 0, 0, 0, 0, 14, 0, 0, 0, 14, 0, 0, 0, //
    0, 0, 0, 0, 0, 1, 0, 0, 0, 0, 0, 1, 0x88, 0xb5, //
    3, 0, 0, 0, 0, 0, 0, 0, 15, 0, 0, 0, 15, 0, 0, 0, //
    0, 0, 0, 0, 0, 1, 0, 0, 0, 0, 0, 3, 0x88, 0xb5, 0, //
    2, 0, 0, 0, 0, 0, 0, 0, 14, 0, 0, 0, 14, 0, 0, 0, //
    0, 0, 0, 0, 0, 1, 0, 0, 0, 0, 0, 2, 0x88, 0xb5,
];

const FRAME_COUNT: usize = 3;

fn full_trace(alloc: Global) -> Result<Trace, Fail>
    ensures { IfOk result IsCounted }
{
    let bytes = FILE.to_vec(alloc)?;
    Ok(read_trace(alloc, bytes, FRAME_COUNT)?)
}

fn syncs_at(alloc: Global, times: &[u64]) -> Result<Vec<SyncPoint>, AllocError>
    ensures { IfOk result (λ syncs. syncs.items ≡ map (λ time. record { time = time; after = 0 }) times.now) }
{
    times
        .iter()
        .map(|time| SyncPoint {
            time: *time,
            after: 0,
        })
        .collect(alloc)
}

// The blocks of the frames at the seconds 1, 3 and 2, with sync points at these times and no edits.
fn blocks_are(rt: &impl Abort, alloc: Global, times: &[u64], want: [u32; 3]) -> Result<(), Fail>
    requires { length times.now < 100 }
{
    let mut list = Vec::new(alloc);
    list.push(FULL_PORT)?;
    list.push(EMPTY_PORT)?;
    let ports = Ports::new(list);
    let syncs = syncs_at(alloc, times)?;
    let mut traces = Vec::with_capacity(alloc, 2)?;
    traces.push_reserved(full_trace(alloc)?);
    traces.push_reserved(Trace::empty(alloc));
    in_run::<Brand>(rt, alloc, ports, syncs, traces, want)
}

fn in_run<C: Case>(
    rt: &impl Abort,
    alloc: Global,
    ports: Ports,
    syncs: Vec<SyncPoint>,
    traces: Vec<Trace>,
    want: [u32; 3],
) -> Result<(), Fail>
    requires ports { ports ≡ C.run.ports }
    requires edits { C.run.edits ≡ [] }
    requires bundles { C.run.bundles ≡ [] }
    requires bundled { AreBundles C.run.bundles (edit_count C.run) }
    requires syncs { syncs.items ≡ C.run.syncs }
    requires traces { traces.items ≡ C.run.traces }
    requires full { HasPort C.run.ports FULL_PORT }
    requires empty { HasPort C.run.ports EMPTY_PORT }
    requires one_each { length C.run.traces ≡ length C.run.ports }
    requires in_order { AreInOrder C.run.syncs (last_version C.run) }
    requires few { length C.run.syncs < 100 }
    requires counted { AreCounted C.run.traces }
{
    let run = RunData::<C>::new(alloc, ports, 0, 0, syncs, traces)?;
    frames_are_read(rt, &run, want);
    drop(run);
    Ok(())
}

fn frames_are_read<C: Case>(rt: &impl Abort, run: &RunData<C>, want: [u32; 3])
    requires full { HasPort C.run.ports FULL_PORT }
    requires empty { HasPort C.run.ports EMPTY_PORT }
{
    assert_eq!(rt; run.frames(EMPTY_PORT), 0);
    assert_eq!(rt; run.frames(FULL_PORT), 3);
    for index in 0..3u32 {
        let keyed = run.keyed(FULL_PORT, index + 1);
        assert_eq!(rt; keyed.block, want[index as usize], "at {index}");
    }
    the_second_frame_is_read(rt, run);
}

fn the_second_frame_is_read<C: Case>(rt: &impl Abort, run: &RunData<C>)
    requires port { HasPort C.run.ports FULL_PORT }
    requires place { HasPlace C.run FULL_PORT 2 }
{
    let keyed = run.keyed(FULL_PORT, 2);
    assert_eq!(rt; keyed.time, 3 * SECOND);
    assert_eq!(rt; keyed.length, 15);
    assert_eq!(rt; keyed.key.get(FieldId::InPort), 7);
    assert_eq!(rt; keyed.key.get(FieldId::DlSrc), 3);
}

#[test]
fn a_frame_of_the_sync_points_time_is_after_it(rt: HostRuntime) -> Result<(), Fail> {
    blocks_are(&rt, rt.alloc(), &[2 * SECOND], [0, 1, 1])
}

#[test]
fn without_sync_points_there_is_one_block(rt: HostRuntime) -> Result<(), Fail> {
    blocks_are(&rt, rt.alloc(), &[], [0, 0, 0])
}

#[test]
fn blocks_at_the_beginning_and_between_equal_times_are_empty(rt: HostRuntime) -> Result<(), Fail> {
    blocks_are(&rt, rt.alloc(), &[0, 2 * SECOND, 2 * SECOND], [1, 3, 3])
}

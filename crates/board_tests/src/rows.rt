//! Runs of literal edits and frames, each with calls of the board of its port.
ghost use Rattle.std.specs.Prelude.{◌≡◌, ◌+◌, ◌^◌, ◌<◌, ◌≤◌, [], ◌∷◌, IsTrue, IfOk, OnOk, length};
ghost use Rattle.std.specs.List.{list_all};
ghost use Rattle.spec_tables.specs.Bundles.{AreBundles};
ghost use Rattle.spec_tables.specs.Edits.{has_sound_actions};
ghost use Rattle.run_case.specs.Places.{HasPort, IsCounted, AreCounted};
ghost use Rattle.spec_case.specs.Blocks.{AreInOrder};
ghost use Rattle.spec_case.specs.Run.{edit_count, last_version};
ghost use Rattle.rule_tables.specs.History.{applied, bundled_by, history_of};

use crate::calls::{Call, first_wrong};
use crate::flows::{Flow, edits_of};
use pcap_files::reader::{Trace, read_trace};
use port_caches::stats::Counts;
use rule_tables::{Edit, VersionedRules};
use run_case::{Case, Ports, RunData};
use run_tables::ClassifierTables;
use spec_tables::SyncPoint;
use std::alloc::{AllocError, Global};
use std::marker::Brand;
use std::process::Abort;
use std::test::Fail;
use table_versions::rules::RunRules;

/// A flow limit that no row reaches.
pub const AMPLE: u32 = 8;

/// The one port of each run.
pub const PORT: u16 = 1;

const SECOND: u64 = 1_000_000_000;

/// More edits, bundles and frames than a row has.
const MANY: usize = 100;

/// The header of a capture file of Ethernet frames, with times in microseconds (pcap-savefile(5)).
const FILE_HEADER: [u8; 24] = [
    0xd4, 0xc3, 0xb2, 0xa1, 2, 0, 4, 0, 0, 0, 0, 0, 0, 0, 0, 0, 0, 0, 4, 0, 1, 0, 0, 0,
];

/// The length of each frame in bytes.
const FRAME_LENGTH: u8 = 60;

/// How many of these stand behind its Ethernet header.
const PAYLOAD_LENGTH: usize = 46;

/// The Ethernet source of each frame, 00:00:00:00:00:01.
const SOURCE: [u8; 6] = [0, 0, 0, 0, 0, 1];

/// The type of each frame, which is for local experiments (IEEE Std 802).
const LOCAL_EXPERIMENT: [u8; 2] = [0x88, 0xb5];

/// What no frames count.
pub const NO_FRAMES: Counts = Counts {
    packets: 0,
    bytes: 0,
};

/// What one frame counts.
pub const ONE_FRAME: Counts = Counts {
    packets: 1,
    bytes: 60,
};

/// What two frames count.
pub const TWO_FRAMES: Counts = Counts {
    packets: 2,
    bytes: 120,
};

/// What three frames count.
pub const THREE_FRAMES: Counts = Counts {
    packets: 3,
    bytes: 180,
};

/// A run, in which each flow is a bundle by itself, and what the calls of its port's board answer, one after the other.
pub struct Row {
    pub shows: &'static str,
    pub flows: &'static [Flow],
    /// The second of the one sync point, if there is one, and how many flows stand before it.
    pub sync: Option<(u8, u32)>,
    /// The seconds at which frames come in, each with the last byte of the frame's destination.
    pub frames: &'static [(u8, u8)],
    pub flow_limit: u32,
    pub calls: &'static [Call],
}

/// Adds a frame to a capture file: at a second, to a destination below 256.
fn push_frame(file: &mut Vec<u8>, second: u8, destination: u8) -> Result<(), AllocError> {
    file.extend_from_slice(&[second, 0, 0, 0, 0, 0, 0, 0])?;
    file.extend_from_slice(&[FRAME_LENGTH, 0, 0, 0, FRAME_LENGTH, 0, 0, 0])?;
    file.extend_from_slice(&[0, 0, 0, 0, 0, destination])?;
    file.extend_from_slice(&SOURCE)?;
    file.extend_from_slice(&LOCAL_EXPERIMENT)?;
    file.extend_from_slice(&[0; PAYLOAD_LENGTH])
}

fn trace_of(alloc: Global, frames: &[(u8, u8)]) -> Result<Trace, Fail>
    ensures { IfOk result IsCounted }
{
    let mut file = FILE_HEADER.to_vec(alloc)?;
    for (second, destination) in frames {
        push_frame(&mut file, *second, *destination)?;
    }
    Ok(read_trace(alloc, file, MANY)?)
}

/// Applies an edit as a bundle by itself.
fn apply_alone(alloc: Global, rules: &mut VersionedRules, edit: &Edit) -> Result<(), AllocError>
    requires { applied rules.old.edits + 1 < 2 ^ 32 }
    ensures { OnOk result (rules.new ≡ bundled_by (edit.now ∷ []) rules.old) }
{
    let bundle = vec![in alloc; edit.copy(alloc)?]?;
    rules.apply(bundle)?;
    Ok(())
}

/// The rules that edits make where each of them is a bundle by itself, and how many edits stand through each bundle.
fn each_alone(alloc: Global, edits: &[Edit]) -> Result<(VersionedRules, Vec<u32>), AllocError>
    requires { length edits.now < MANY }
    ensures rules { IfOk result (λ r. r.0 ≡ history_of edits.now r.1.items) }
    ensures whole { IfOk result (λ r. AreBundles r.1.items (length edits.now)) }
    ensures count { IfOk result (λ r. length r.1.items ≡ length edits.now) }
{
    let mut rules = VersionedRules::new(alloc);
    let mut bundles = Vec::new(alloc);
    'edits: for edit in edits {
        apply_alone(alloc, &mut rules, edit)?;
        bundles.push(rules.edits())?;
    }
    Ok((rules, bundles))
}

fn syncs_of(
    alloc: Global,
    sync: Option<(u8, u32)>,
    bundles: u32,
) -> Result<Vec<SyncPoint>, AllocError>
    ensures order { IfOk result (λ syncs. AreInOrder syncs.items bundles) }
    ensures few { IfOk result (λ syncs. length syncs.items ≤ 1) }
{
    let mut syncs = Vec::new(alloc);
    if let Some((second, after)) = sync {
        syncs.push(SyncPoint {
            time: u64::from(second) * SECOND,
            after: after.min(bundles),
        })?;
    }
    Ok(syncs)
}

/// That each row's board answers as the row has it.
pub fn are_as_shown(rt: &impl Abort, alloc: Global, rows: &[Row]) -> Result<(), Fail> {
    for row in rows {
        assert!(rt; row.flows.len() < MANY);
        assert_eq!(rt; first_wrong_of(alloc, row)?, None, "{}", row.shows);
    }
    Ok(())
}

/// The place of the first call of a row, from 0, that doesn't answer as the row has it.
fn first_wrong_of(alloc: Global, row: &Row) -> Result<Option<usize>, Fail>
    requires { length row.now.flows.now < MANY }
{
    let mut list = Vec::new(alloc);
    list.push(PORT)?;
    let ports = Ports::new(list);
    let edits = edits_of(alloc, row.flows)?;
    let (rules, bundles) = each_alone(alloc, &edits)?;
    let syncs = syncs_of(alloc, row.sync, bundles.len() as u32)?;
    let mut traces = Vec::new(alloc);
    traces.push(trace_of(alloc, row.frames)?)?;
    Ok(in_run::<Brand>(alloc, ports, edits, bundles, rules, syncs, traces, row)?)
}

fn in_run<C: Case + Send + Sync>(
    alloc: Global,
    ports: Ports,
    edits: Vec<Edit>,
    bundles: Vec<u32>,
    rules: VersionedRules,
    syncs: Vec<SyncPoint>,
    traces: Vec<Trace>,
    row: &Row,
) -> Result<Option<usize>, AllocError>
    requires ports { ports ≡ C.run.ports }
    requires edits { edits.items ≡ C.run.edits }
    requires bundles { bundles.items ≡ C.run.bundles }
    requires rules { rules ≡ history_of C.run.edits C.run.bundles }
    requires whole { AreBundles C.run.bundles (edit_count C.run) }
    requires syncs { syncs.items ≡ C.run.syncs }
    requires traces { traces.items ≡ C.run.traces }
    requires port { HasPort C.run.ports PORT }
    requires sound { IsTrue (list_all has_sound_actions C.run.edits) }
    requires one_each { length C.run.traces ≡ length C.run.ports }
    requires in_order { AreInOrder C.run.syncs (last_version C.run) }
    requires few_edits { length C.run.edits < MANY }
    requires few_bundles { length C.run.bundles < MANY }
    requires few_syncs { length C.run.syncs ≤ 1 }
    requires counted { AreCounted C.run.traces }
    requires limit { row.now.flow_limit ≡ C.run.flow_limit }
{
    let (edit_count, bundle_count) = (edits.len() as u32, bundles.len() as u32);
    drop(edits);
    drop(bundles);
    let made = RunData::<C>::new(alloc, ports, edit_count, bundle_count, syncs, traces);
    let rules = RunRules::new(rules);
    let wrong = first_wrong_in(alloc, made, &rules, row);
    drop(rules);
    wrong
}

/// The same in a run, where there was memory for it.
fn first_wrong_in<C: Case + Send + Sync>(
    alloc: Global,
    made: Result<RunData<C>, AllocError>,
    rules: &RunRules<C>,
    row: &Row,
) -> Result<Option<usize>, AllocError>
    requires port { HasPort C.run.ports PORT }
    requires sound { IsTrue (list_all has_sound_actions C.run.edits) }
    requires limit { row.now.flow_limit ≡ C.run.flow_limit }
{
    let run = made?;
    let wrong = first_wrong::<C, ClassifierTables<'_, C>>(
        alloc,
        &run,
        rules,
        row.flow_limit,
        row.calls,
    );
    drop(run);
    wrong
}

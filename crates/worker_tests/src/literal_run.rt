//! Runs of literal edits and frames.
ghost use Rattle.std.specs.Prelude.{◌≡◌, ◌≤◌, IsTrue, IfOk, length};
ghost use Rattle.std.specs.List.{list_all};
ghost use Rattle.spec_case.specs.Blocks.{AreInOrder};
ghost use Rattle.spec_input.specs.Script.{most_edits, most_syncs};
ghost use Rattle.spec_tables.specs.Bundles.{AreBundles};
ghost use Rattle.spec_tables.specs.Edits.{has_sound_actions};
ghost use Rattle.run_case.specs.Places.{HasPort, IsCounted};
ghost use Rattle.edit_script.specs.Made.{AreRules};
ghost use Rattle.edit_script.specs.ScriptViews.{read_view};

use edit_script::{MOST_BYTES, ReadEdits, Script, read_script};
use pcap_files::reader::{Trace, read_trace};
use rule_tables::VersionedRules;
use run_case::{Case, Ports, RunData};
use std::alloc::{AllocError, Global};
use std::marker::Model;
use std::test::Fail;
use table_versions::rules::RunRules;

/// The one port of each run.
pub const PORT: u16 = 1;

/// More frames than a run has.
const MANY: usize = 100;

/// The header of a capture file of Ethernet frames, with times in microseconds (pcap-savefile(5)).
const FILE_HEADER: [u8; 24] = [
    0xd4, 0xc3, 0xb2, 0xa1, 2, 0, 4, 0, 0, 0, 0, 0, 0, 0, 0, 0, 0, 0, 4, 0, 1, 0, 0, 0,
];

/// The header of the record of a frame of 60 bytes that comes in at 1 second.
const RECORD_HEADER: [u8; 16] = [1, 0, 0, 0, 0, 0, 0, 0, 60, 0, 0, 0, 60, 0, 0, 0];

/// The Ethernet source of each frame, 00:00:00:00:00:01, and its type, which is for local experiments (IEEE Std 802).
const SOURCE_AND_TYPE: [u8; 8] = [0, 0, 0, 0, 0, 1, 0x88, 0xb5];

/// How many bytes stand behind these.
const PAYLOAD_LENGTH: usize = 46;

/// A run of edits and frames, with the rules that its edits make. Contracts see the run.
#[derive(Drop)]
pub struct LiteralRun {
    ports: Ports,
    script: Script,
    rules: VersionedRules,
    traces: Vec<Trace>,
}

impl Model for LiteralRun {
    ghost use Rattle.std.specs.Prelude.{◌≡◌, ◌≤◌, [], IsTrue, length};
    ghost use Rattle.std.specs.List.{list_all};
    ghost use Rattle.spec_case.specs.Blocks.{AreInOrder};
    ghost use Rattle.spec_case.specs.Run.{Run};
    ghost use Rattle.spec_input.specs.Script.{most_edits, most_syncs};
    ghost use Rattle.spec_tables.specs.Bundles.{AreBundles};
    ghost use Rattle.spec_tables.specs.Edits.{has_sound_actions};
    ghost use Rattle.run_case.specs.Places.{HasPort, AreCounted};
    ghost use Rattle.rule_tables.specs.History.{history_of};
    ghost use Rattle.edit_script.specs.ScriptViews.{script_view};

    ghost Value = { Run };

    ghost view = { λ g. record {
      ports = g.ports;
      edits = (script_view g.script).edits;
      bundles = g.script.bundles.items;
      syncs = g.script.syncs.items;
      traces = g.traces.items;
      flow_limit = 8;
      steps = [];
    } };

    ghost invariant = { λ g. HasPort g.ports 1
        × (length g.traces.items ≡ length g.ports)
        × AreCounted g.traces.items
        × IsTrue (list_all has_sound_actions (script_view g.script).edits)
        × (length (script_view g.script).edits ≤ most_edits)
        × (length g.script.syncs.items ≤ most_syncs)
        × AreInOrder g.script.syncs.items (length g.script.bundles.items)
        × AreBundles g.script.bundles.items (length (script_view g.script).edits)
        × (g.rules ≡ history_of (script_view g.script).edits g.script.bundles.items) };
}

/// Adds a frame to a capture file, to a destination below 256.
fn push_frame(file: &mut Vec<u8>, destination: u8) -> Result<(), AllocError> {
    file.extend_from_slice(&RECORD_HEADER)?;
    file.extend_from_slice(&[0, 0, 0, 0, 0, destination])?;
    file.extend_from_slice(&SOURCE_AND_TYPE)?;
    file.extend_from_slice(&[0; PAYLOAD_LENGTH])
}

fn trace_of(alloc: Global, frames: &[u8]) -> Result<Trace, Fail>
    ensures { IfOk result IsCounted }
{
    let mut file = FILE_HEADER.to_vec(alloc)?;
    for destination in frames {
        push_frame(&mut file, *destination)?;
    }
    Ok(read_trace(alloc, file, MANY)?)
}

fn edits_said(alloc: Global, edits: &[u8]) -> Result<ReadEdits, Fail>
    ensures rules { IfOk result (λ r. AreRules (read_view r).edits (read_view r).bundles r.rules) }
    ensures sound { IfOk result (λ r. IsTrue (list_all has_sound_actions (read_view r).edits)) }
    ensures edit_count { IfOk result (λ r. length (read_view r).edits ≤ most_edits) }
    ensures sync_count { IfOk result (λ r. length (read_view r).syncs ≤ most_syncs) }
    ensures in_order { IfOk result
        (λ r. AreInOrder (read_view r).syncs (length (read_view r).bundles)) }
    ensures bundles { IfOk result (λ r. AreBundles (read_view r).bundles (length (read_view r).edits)) }
{
    if edits.len() > MOST_BYTES {
        return Err(Fail::new("there are few edits"));
    }
    read_script(alloc, edits).map_err(|_| Fail::new("the edits are read"))
}

impl LiteralRun {
    /// A run of a file of edits, and of frames that come in at 1 second, each to a destination of this last byte.
    pub fn new(alloc: Global, edits: &[u8], frames: &[u8]) -> Result<LiteralRun, Fail> {
        let mut traces = Vec::new(alloc);
        traces.push(trace_of(alloc, frames)?)?;
        let mut list = Vec::new(alloc);
        list.push(PORT)?;
        let ports = Ports::new(list);
        let ReadEdits { script, rules } = edits_said(alloc, edits)?;
        let Some(rules) = rules else {
            return Err(Fail::new("the edits change few rules"));
        };
        Ok(LiteralRun {
            ports,
            script,
            rules,
            traces,
        })
    }

    /// A run of two versions without frames: a rule is added, and then deleted and added again by one bundle.
    pub fn two_versions(alloc: Global) -> Result<LiteralRun, Fail> {
        LiteralRun::new(alloc, b"actions=1\nbegin\ndelete\nactions=1\ncommit\n", &[])
    }

    /// The run under its name, and the rules of its versions.
    pub fn named<C: Case>(self, alloc: Global) -> Result<(RunData<C>, RunRules<C>), AllocError>
        requires { C.run ≡ self }
        ensures port { HasPort C.run.ports PORT }
        ensures sound { IsTrue (list_all has_sound_actions C.run.edits) }
    {
        let LiteralRun {
            ports,
            script,
            rules,
            traces,
        } = self;
        let rules = RunRules::<C>::new(rules);
        let made = RunData::<C>::new(
            alloc,
            ports,
            rules.edits(),
            rules.versions(),
            script.syncs,
            traces,
        );
        match made {
            Ok(run) => Ok((run, rules)),
            Err(error) => {
                drop(rules);
                Err(error)
            }
        }
    }
}

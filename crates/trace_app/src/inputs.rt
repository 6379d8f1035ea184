//! What is traced: the words, the file of edits and the flow, read up to the first that is refused.
ghost use Rattle.std.specs.Prelude.{◌≡◌, ◌≤◌, length, Ok, Err, IsTrue, IfOk, IfErr};
ghost use Rattle.std.specs.List.{list_all};
ghost use Rattle.edge_io.specs.declared.outside.InUse.TheVariants.{Nothing};
ghost use Rattle.spec_tables.specs.Bundles.{AreBundles};
ghost use Rattle.spec_tables.specs.Edits.{has_sound_actions};
ghost use Rattle.spec_xlate.specs.Translation.{in_port_of};
ghost use Rattle.ovs_fields.specs.Packed.{numbers};
ghost use Rattle.command_words.specs.CommandViews.{texts};
ghost use Rattle.rule_tables.specs.History.{history_of};
ghost use Rattle.edit_script.specs.ScriptViews.{script_view};
ghost use Rattle.spec_tools.specs.TraceVerdict.{Usage as UsageOf, command_in, case_of, verdict_of, verdict, opened_for, files_opened};
ghost use Rattle.trace_app.specs.Known.{IsKnown};
ghost use Rattle.trace_app.specs.Commands.{command_view};
ghost use Rattle.trace_app.specs.InputViews.{accepted_view, IsTraceable};
ghost use Rattle.switch_input.specs.Reading.{ReadsFiles, ReadsWhere};
ghost use Rattle.trace_app.specs.Refused.{Explains, TellsUsage, TakesWords, IsUntold, TellsNoFault, ending_of};

use crate::flow::{key_of, read_flow};
use crate::refusal::Refusal;
use crate::words::{Command, names_port, read_command};
use edge_io::Shelf;
use ovs_fields::{FieldId, Key};
use rule_tables::VersionedRules;
use std::alloc::{AllocError, Global};
use switch_input::{EditsFile, read_edits};

/// What is traced.
#[derive(Drop)]
pub struct Inputs {
    /// The rules of all versions that the edits make.
    pub rules: VersionedRules,
    /// The ports of the switch, in the order of the words.
    pub ports: Vec<u16>,
    /// The key of the packet.
    pub key: Key,
}

// The port by which a packet comes in.
fn in_port(key: &Key) -> u16
    ensures { result ≡ in_port_of (numbers key.now) }
{
    key.get(FieldId::InPort) as u16
}

// What is traced, after the edits: the flow, whose port has to be one of the switch.
fn inputs_of<'a>(
    alloc: Global,
    edits: EditsFile,
    flow: &'a str,
    ports: Vec<u16>,
) -> Result<Inputs, Refusal<'a>>
    requires rules { edits.rules ≡ history_of (script_view edits.script).edits edits.script.bundles.items }
    requires bundles { AreBundles edits.script.bundles.items (length (script_view edits.script).edits) }
    requires sound { IsTrue (list_all has_sound_actions (script_view edits.script).edits) }
    ensures ok { IfOk result (λ inputs.
        case_of flow.now ports.items (script_view edits.script) ≡ Ok (accepted_view inputs)) }
    ensures within { IfOk result IsTraceable }
    ensures err { IfErr result (Explains (case_of flow.now ports.items (script_view edits.script))) }
    ensures unsaid { IfErr result IsUntold }
    ensures taken { IfErr result TakesWords }
    ensures no_fault { IfErr result TellsNoFault }
{
    let matching = read_flow(alloc, flow)?;
    let key = key_of(&matching);
    let port = in_port(&key);
    if !names_port(&ports, port) {
        return Err(Refusal::NoPort { port });
    }
    Ok(Inputs {
        rules: edits.rules,
        ports,
        key,
    })
}

// Reads what the words name: the file of edits, and then the flow.
fn read_sources<'a, S: Shelf>(
    alloc: Global,
    shelf: &mut S,
    command: Command<'a>,
) -> Result<Inputs, Refusal<'a>>
    requires { S.in_use shelf.old ≡ Nothing }
    ensures in_use { S.in_use shelf.new ≡ Nothing }
    ensures reads { let names = opened_for (command_view command.entry) in
        ReadsFiles S.Shelf shelf.old shelf.new names (ending_of result) }
    ensures ok { IsTrue S.tells → IfOk result (λ inputs.
        verdict_of (S.told shelf.old).holds (command_view command.entry) ≡ Ok (accepted_view inputs)) }
    ensures within { IfOk result IsTraceable }
    ensures err { IsTrue S.tells → IfErr result
        (Explains (verdict_of (S.told shelf.old).holds (command_view command.entry))) }
    ensures unsaid { IfErr result IsUntold }
    ensures taken { IfErr result TakesWords }
{
    let edits = read_edits(alloc, shelf, command.edits)?;
    inputs_of(alloc, edits, command.flow, command.ports)
}

/// Reads the words, the file of edits that they name and the flow, up to the first that is refused.
pub fn read_inputs<'a, S: Shelf>(
    alloc: Global,
    words: &'a [String],
    shelf: &mut S,
) -> Result<Inputs, Refusal<'a>>
    requires { S.in_use shelf.old ≡ Nothing }
    ensures in_use { S.in_use shelf.new ≡ Nothing }
    ensures reads { let knows = IsKnown S.tells (texts words.now) in
        ReadsWhere knows S.Shelf shelf.old shelf.new (files_opened (texts words.now)) (ending_of result) }
    ensures ok { let given = verdict (texts words.now) (S.told shelf.old).holds in
        IsKnown S.tells (texts words.now) → IfOk result (λ inputs. given ≡ Ok (accepted_view inputs)) }
    ensures within { IfOk result IsTraceable }
    ensures err { let given = verdict (texts words.now) (S.told shelf.old).holds in
        IsKnown S.tells (texts words.now) → IfErr result (Explains given) }
    ensures unsaid { IfErr result IsUntold }
    ensures usage { IfErr result (λ r. TellsUsage r → command_in (texts words.now) ≡ Err UsageOf) }
{
    match read_command(alloc, words)? {
        None => Err(Refusal::Usage),
        Some(command) => read_sources(alloc, shelf, command),
    }
}

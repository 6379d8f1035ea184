ghost use Rattle.std.specs.Prelude.{◌≡◌, false, Ok, Err, IsTrue, IfOk, IfErr};
ghost use Rattle.edge_io.specs.declared.outside.InUse.TheVariants.{Nothing};
ghost use Rattle.spec_base.specs.Files.{lookup_or_empty};
ghost use Rattle.spec_run.specs.Verdict.{Usage, verdict, command_in, files_for, made_list, sources_opened, opened_for, files_opened};
ghost use Rattle.command_words.specs.PortViews.{ArePorts};
ghost use Rattle.command_words.specs.CommandViews.{texts, command_view, input_view, IfFiles, HasWorkers};
ghost use Rattle.switch_input.specs.InputViews.{sources_for, run_for, Gives, accepted_view, IsWithinLimits};
ghost use Rattle.switch_input.specs.Known.{IsKnownInput, IsKnown, NeedNoFile};
ghost use Rattle.switch_input.specs.Reading.{ReadsFiles, ReadsWhere};
ghost use Rattle.switch_input.specs.Refused.{TakesWords, TellsUsage, TellsNoFault, Explains, ending_of};

use crate::command::read_command;
use crate::edits::read_edits;
use crate::made::made_shelf;
use crate::mirrors::read_mirrors;
use crate::reading::read_traces;
use crate::refusals::InputRefusal;
use crate::sources::{ports_of, sources_of};
use crate::steps::read_steps;
use command_words::{Command, Input};
use edge_io::Shelf;
use edit_script::Script;
use pcap_files::reader::Trace;
use port_scripts::Mirror;
use rule_tables::VersionedRules;
use run_case::blocks::Ports;
use spec_case::RunStep;
use std::alloc::Global;

/// What the words say, and what was read for them.
#[derive(Drop)]
pub struct Inputs<'a> {
    pub command: Command<'a>,
    /// The ports, in the order of the words or of what a number makes.
    pub ports: Ports,
    pub script: Script,
    /// The rules of all versions that the edits of the script make.
    pub rules: VersionedRules,
    /// The given steps: none where there is no steps file.
    pub steps: Vec<RunStep>,
    /// The mirrors: none where there is no mirrors file.
    pub mirrors: Vec<Mirror>,
    /// A trace for each port, in their order.
    pub traces: Vec<Trace>,
}

// Reads what a command is run on from a shelf: the file of edits, then the steps file, then the mirrors file, and then the
// traces in the order of the ports, up to the first that is refused.
fn read_sources<'a, S: Shelf>(
    alloc: Global,
    shelf: &mut S,
    command: Command<'a>,
) -> Result<Inputs<'a>, InputRefusal<'a>>
    requires in_use { S.in_use shelf.old ≡ Nothing }
    requires ports { IfFiles command.input ArePorts }
    requires workers { HasWorkers command }
    ensures in_use { S.in_use shelf.new ≡ Nothing }
    ensures reads { let names = sources_opened (S.told shelf.old).holds (sources_for command.entry) in
        ReadsFiles S.Shelf shelf.old shelf.new names (ending_of result) }
    ensures command { IfOk result (λ inputs. inputs.command ≡ command.entry) }
    ensures ok { IsTrue S.tells → IfOk result (Gives (run_for (S.told shelf.old).holds command.entry)) }
    ensures within { IfOk result IsWithinLimits }
    ensures err { IsTrue S.tells → IfErr result (Explains (run_for (S.told shelf.old).holds command.entry)) }
    ensures taken { IfErr result TakesWords }
{
    let sources = sources_of(&command.input);
    let ports = ports_of(alloc, sources.ports)?;
    let edits = read_edits(alloc, shelf, sources.edits)?;
    let numbers = ports.as_slice();
    let steps = read_steps(alloc, shelf, numbers, sources.steps)?;
    let mirrors = read_mirrors(alloc, shelf, numbers, sources.mirrors)?;
    let traces = read_traces(alloc, shelf, sources.ports)?;
    Ok(Inputs {
        command,
        ports,
        script: edits.script,
        rules: edits.rules,
        steps,
        mirrors,
        traces,
    })
}

// Reads what a number makes, as if it were files. Nothing fails but memory.
fn read_made<'a>(
    alloc: Global,
    number: u32,
    command: Command<'a>,
) -> Result<Inputs<'a>, InputRefusal<'a>>
    requires made { command.input ≡ Input.Made number }
    requires workers { HasWorkers command }
    ensures command { IfOk result (λ inputs. inputs.command ≡ command.entry) }
    ensures ok { IfOk result (Gives (run_for (lookup_or_empty (made_list number)) command.entry)) }
    ensures within { IfOk result IsWithinLimits }
    ensures err { IfErr result (Explains (run_for (lookup_or_empty (made_list number)) command.entry)) }
    ensures taken { IfErr result TakesWords }
    ensures no_fault { IfErr result TellsNoFault }
{
    let mut shelf = made_shelf(alloc, number)?;
    read_sources(alloc, &mut shelf, command)
}

// Reads what a command is run on.
fn read_run<'a, S: Shelf>(
    alloc: Global,
    shelf: &mut S,
    command: Command<'a>,
) -> Result<Inputs<'a>, InputRefusal<'a>>
    requires in_use { S.in_use shelf.old ≡ Nothing }
    requires ports { IfFiles command.input ArePorts }
    requires workers { HasWorkers command }
    ensures in_use { S.in_use shelf.new ≡ Nothing }
    ensures reads { let input = input_view command.entry.input in
        ReadsWhere (IsKnownInput S.tells input) S.Shelf shelf.old shelf.new
        (opened_for (S.told shelf.old).holds input) (ending_of result) }
    ensures command { IfOk result (λ inputs. inputs.command ≡ command.entry) }
    ensures ok { let input = input_view command.entry.input in IsKnownInput S.tells input
        → IfOk result (Gives (run_for (files_for (S.told shelf.old).holds input) command.entry)) }
    ensures within { IfOk result IsWithinLimits }
    ensures err { let input = input_view command.entry.input in IsKnownInput S.tells input
        → IfErr result (Explains (run_for (files_for (S.told shelf.old).holds input) command.entry)) }
    ensures taken { IfErr result TakesWords }
    ensures no_fault { IsKnownInput false (input_view command.entry.input) → IfErr result TellsNoFault }
    ensures untouched { IsKnownInput false (input_view command.entry.input) → shelf.new ≡ shelf.old }
{
    match command.input {
        Input::Files(_) => read_sources(alloc, shelf, command),
        Input::Made { number } => read_made(alloc, number, command),
    }
}

/// Reads the words and what they are run on, up to the first that is refused: the file of edits, then the steps file, then the
/// mirrors file, and then the traces in the order of the ports. What a number makes is read as if it were files, and the
/// shelf isn't touched.
pub fn read_inputs<'a, S: Shelf>(
    alloc: Global,
    words: &'a [String],
    shelf: &mut S,
) -> Result<Inputs<'a>, InputRefusal<'a>>
    requires { S.in_use shelf.old ≡ Nothing }

    // Nothing but reading is done, and each file is opened only where none before it is refused.
    ensures in_use { S.in_use shelf.new ≡ Nothing }
    ensures reads { let words = texts words.now in
        ReadsWhere (IsKnown S.tells words) S.Shelf shelf.old shelf.new
        (files_opened words (S.told shelf.old).holds) (ending_of result) }

    // What is read is what the verdict accepts.
    ensures command { IfOk result (λ inputs. command_in (texts words.now) ≡ Ok (command_view inputs.command)) }
    ensures accepted { let given = verdict (texts words.now) (S.told shelf.old).holds in
        IsKnown S.tells (texts words.now) → IfOk result (λ inputs. given ≡ Ok (accepted_view inputs)) }
    ensures within { IfOk result IsWithinLimits }

    // A refusal of an input is the verdict's, and that of the words is theirs, whatever the shelf tells.
    ensures refused { let given = verdict (texts words.now) (S.told shelf.old).holds in
        IsKnown S.tells (texts words.now) → IfErr result (Explains given) }
    ensures usage { IfErr result (λ r. TellsUsage r → command_in (texts words.now) ≡ Err Usage) }

    // Where no file is needed, none is read.
    ensures no_fault { NeedNoFile (texts words.now) → IfErr result TellsNoFault }
    ensures untouched { NeedNoFile (texts words.now) → shelf.new ≡ shelf.old }
{
    let command = read_command(alloc, words)?;
    read_run(alloc, shelf, command)
}

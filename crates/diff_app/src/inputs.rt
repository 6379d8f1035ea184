//! What is compared: the words and both files of edits, read up to the first that is refused.
ghost use Rattle.std.specs.Prelude.{◌≡◌, ◌∷◌, [], Ok, IsTrue, IfOk, IfErr};
ghost use Rattle.edge_io.specs.declared.outside.InUse.TheVariants.{Nothing};
ghost use Rattle.command_words.specs.CommandViews.{texts};
ghost use Rattle.edit_script.specs.ScriptViews.{script_view};
ghost use Rattle.spec_tools.specs.DiffVerdict.{case_of, verdict_of, verdict, opened_for, files_opened};
ghost use Rattle.diff_app.specs.Commands.{command_view};
ghost use Rattle.diff_app.specs.InputViews.{accepted_view, accepted_of, AreComparable, IsEditsFile};
ghost use Rattle.switch_input.specs.Reading.{ReadsFiles};
ghost use Rattle.diff_app.specs.Refused.{Explains, IsUntold, ending_of};

use crate::refusal::Refusal;
use crate::words::{Command, read_command};
use edge_io::Shelf;
use rule_tables::VersionedRules;
use std::alloc::Global;
use switch_input::{EditsFile, read_edits};

/// What is compared.
#[derive(Drop)]
pub struct Inputs {
    /// The rules of all versions that the edits of OLD make, of which the last counts.
    pub old: VersionedRules,
    /// Those of NEW.
    pub new: VersionedRules,
    /// The ports of the switch, in the order of the words.
    pub ports: Vec<u16>,
    /// Whether kinds alone are told.
    pub brief: bool,
}

// What is compared, after both files of edits.
fn inputs_of(old: EditsFile, new: EditsFile, ports: Vec<u16>, brief: bool) -> Inputs
    requires old { IsEditsFile old }
    requires new { IsEditsFile new }
    ensures view { accepted_view result ≡ accepted_of ports.items brief (script_view old.script) (script_view new.script) }
    ensures comparable { AreComparable result }
{
    Inputs {
        old: old.rules,
        new: new.rules,
        ports,
        brief,
    }
}

// Reads the file NEW, after the file OLD was read.
fn read_new<'a, S: Shelf>(
    alloc: Global,
    shelf: &mut S,
    command: Command<'a>,
    old: EditsFile,
) -> Result<Inputs, Refusal<'a>>
    requires in_use { S.in_use shelf.old ≡ Nothing }
    requires old { IsEditsFile old }
    ensures in_use { S.in_use shelf.new ≡ Nothing }
    ensures ok { IsTrue S.tells → IfOk result (λ inputs.
        case_of (S.told shelf.old).holds (command_view command.entry) (script_view old.script) ≡ Ok (accepted_view inputs)) }
    ensures comparable { IfOk result AreComparable }
    ensures err { IsTrue S.tells → IfErr result
        (Explains (case_of (S.told shelf.old).holds (command_view command.entry) (script_view old.script))) }
    ensures unsaid { IfErr result IsUntold }
    ensures reads { let names = (command_view command.entry).new ∷ [] in
        ReadsFiles S.Shelf shelf.old shelf.new names (ending_of result) }
{
    let new = read_edits(alloc, shelf, command.new)?;
    Ok(inputs_of(old, new, command.ports, command.brief))
}

// Reads what the words name: the file OLD, and then the file NEW.
fn read_sources<'a, S: Shelf>(
    alloc: Global,
    shelf: &mut S,
    command: Command<'a>,
) -> Result<Inputs, Refusal<'a>>
    requires { S.in_use shelf.old ≡ Nothing }
    ensures in_use { S.in_use shelf.new ≡ Nothing }
    ensures ok { IsTrue S.tells → IfOk result (λ inputs.
        verdict_of (S.told shelf.old).holds (command_view command.entry) ≡ Ok (accepted_view inputs)) }
    ensures comparable { IfOk result AreComparable }
    ensures err { IsTrue S.tells → IfErr result
        (Explains (verdict_of (S.told shelf.old).holds (command_view command.entry))) }
    ensures unsaid { IfErr result IsUntold }
    ensures reads { let names = opened_for (S.told shelf.old).holds (command_view command.entry) in
        ReadsFiles S.Shelf shelf.old shelf.new names (ending_of result) }
{
    let old = read_edits(alloc, shelf, command.old)?;
    read_new(alloc, shelf, command, old)
}

/// Reads the words and both files of edits that they name, up to the first that is refused.
pub fn read_inputs<'a, S: Shelf>(
    alloc: Global,
    words: &'a [String],
    shelf: &mut S,
) -> Result<Inputs, Refusal<'a>>
    requires { S.in_use shelf.old ≡ Nothing }
    ensures in_use { S.in_use shelf.new ≡ Nothing }
    ensures ok { IsTrue S.tells → IfOk result (λ inputs.
        verdict (texts words.now) (S.told shelf.old).holds ≡ Ok (accepted_view inputs)) }
    ensures comparable { IfOk result AreComparable }
    ensures err { IsTrue S.tells → IfErr result
        (Explains (verdict (texts words.now) (S.told shelf.old).holds)) }
    ensures unsaid { IfErr result IsUntold }
    ensures reads { let names = files_opened (texts words.now) (S.told shelf.old).holds in
        ReadsFiles S.Shelf shelf.old shelf.new names (ending_of result) }
{
    match read_command(alloc, words)? {
        None => Err(Refusal::Usage),
        Some(command) => read_sources(alloc, shelf, command),
    }
}

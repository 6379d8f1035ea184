//! The file of edits: its bytes, the script that they say, and the rules that its edits make.
//!
//! Each stage of the verdict on it is a function of its own, in the verdict's order.
ghost use Rattle.std.specs.Prelude.{◌≡◌, ◌≤◌, [], ◌∷◌, length, Ok, IsTrue, OnOk, IfOk, IfErr};
ghost use Rattle.std.specs.List.{list_all};
ghost use Rattle.edge_io.specs.declared.outside.InUse.TheVariants.{Nothing};
ghost use Rattle.spec_case.specs.Blocks.{AreInOrder};
ghost use Rattle.spec_input.specs.Script.{most_edits, most_syncs};
ghost use Rattle.spec_run.specs.Limits.{most_edits_bytes};
ghost use Rattle.spec_run.specs.Verdict.{script_within, with_few_changes, script_in};
ghost use Rattle.spec_tables.specs.Bundles.{AreBundles};
ghost use Rattle.spec_tables.specs.Edits.{has_sound_actions};
ghost use Rattle.rule_tables.specs.History.{history_of};
ghost use Rattle.edit_script.specs.Made.{AreRules};
ghost use Rattle.edit_script.specs.ScriptViews.{script_view, read_view};
ghost use Rattle.switch_input.specs.EditsViews.{script_in_bytes};
ghost use Rattle.switch_input.specs.Reading.{ReadsFiles};
ghost use Rattle.switch_input.specs.Refused.{IfReadFault, TakesWords, TellsNoFault, Explains, ending_of};

use crate::reading::read_file;
use crate::refusals::{InputFault, InputRefusal, MOST_EDITS_BYTES, refused_text};
use edge_io::Shelf;
use edit_script::{ReadEdits, Script, read_script};
use rule_tables::VersionedRules;
use spec_run::Quantity;
use std::alloc::Global;

/// The script of a file of edits, and the rules of all versions that its edits make.
#[derive(Drop)]
pub struct EditsFile {
    pub script: Script,
    pub rules: VersionedRules,
}

// What the bytes of a file say.
fn edits_said<'a>(alloc: Global, name: &'a str, bytes: &[u8]) -> Result<ReadEdits, InputRefusal<'a>>
    requires { length bytes.now ≤ most_edits_bytes }
    ensures ok { IfOk result (λ r. script_within name.now bytes.now ≡ Ok (read_view r)) }
    ensures rules { IfOk result (λ r. AreRules (read_view r).edits (read_view r).bundles r.rules) }
    ensures sound { IfOk result (λ r. IsTrue (list_all has_sound_actions (read_view r).edits)) }
    ensures few_edits { IfOk result (λ r. length (read_view r).edits ≤ most_edits) }
    ensures few_syncs { IfOk result (λ r. length (read_view r).syncs ≤ most_syncs) }
    ensures in_order { IfOk result
        (λ r. AreInOrder (read_view r).syncs (length (read_view r).bundles)) }
    ensures bundles { IfOk result (λ r. AreBundles (read_view r).bundles (length (read_view r).edits)) }
    ensures err { IfErr result (Explains (script_within name.now bytes.now)) }
    ensures no_fault { IfErr result TellsNoFault }
    ensures taken { IfErr result TakesWords }
{
    match read_script(alloc, bytes) {
        Ok(read) => Ok(read),
        Err(fault) => Err(refused_text(name, fault)),
    }
}

// The script and its rules, where its edits change no more than they may.
#[tactic(auto, unfolding(rule_tables::specs::History::edit_history))]
fn with_few_changes<'a>(read: ReadEdits) -> Result<EditsFile, InputRefusal<'a>>
    requires { AreRules (read_view read).edits (read_view read).bundles read.rules }
    ensures ok { OnOk result (with_few_changes (read_view read) ≡ Ok (read_view read)) }
    ensures script { IfOk result (λ e. e.script ≡ read.script) }
    ensures rules { IfOk result (λ e. e.rules ≡ history_of (read_view read).edits (read_view read).bundles) }
    ensures err { IfErr result (Explains (with_few_changes (read_view read))) }
    ensures no_fault { IfErr result TellsNoFault }
    ensures taken { IfErr result TakesWords }
{
    let ReadEdits { script, rules } = read;
    match rules {
        Some(rules) => Ok(EditsFile { script, rules }),
        None => Err(InputRefusal::Input(InputFault::Limit(Quantity::Changes))),
    }
}

// The script of the bytes of a file and the rules of its edits, where they are accepted.
fn edits_in<'a>(alloc: Global, name: &'a str, bytes: &[u8]) -> Result<EditsFile, InputRefusal<'a>>
    requires { length bytes.now ≤ most_edits_bytes }
    ensures ok { IfOk result (λ e. script_in_bytes name.now bytes.now ≡ Ok (script_view e.script)) }
    ensures rules { IfOk result (λ e. e.rules ≡ history_of (script_view e.script).edits e.script.bundles.items) }
    ensures sound { IfOk result (λ e. IsTrue (list_all has_sound_actions (script_view e.script).edits)) }
    ensures few_edits { IfOk result (λ e. length (script_view e.script).edits ≤ most_edits) }
    ensures few_syncs { IfOk result (λ e. length e.script.syncs.items ≤ most_syncs) }
    ensures in_order { IfOk result
        (λ e. AreInOrder e.script.syncs.items (length e.script.bundles.items)) }
    ensures bundles { IfOk result
        (λ e. AreBundles e.script.bundles.items (length (script_view e.script).edits)) }
    ensures err { IfErr result (Explains (script_in_bytes name.now bytes.now)) }
    ensures no_fault { IfErr result TellsNoFault }
    ensures taken { IfErr result TakesWords }
{
    let read = edits_said(alloc, name, bytes)?;
    with_few_changes(read)
}

/// Reads the file of edits, and the rules that they make.
pub fn read_edits<'a, S: Shelf>(
    alloc: Global,
    shelf: &mut S,
    name: &'a str,
) -> Result<EditsFile, InputRefusal<'a>>
    requires { S.in_use shelf.old ≡ Nothing }
    ensures in_use { S.in_use shelf.new ≡ Nothing }
    ensures reads { ReadsFiles S.Shelf shelf.old shelf.new (name.now ∷ []) (ending_of result) }
    ensures ok { IsTrue S.tells
        → IfOk result (λ e. script_in (S.told shelf.old).holds name.now ≡ Ok (script_view e.script)) }
    ensures rules { IfOk result (λ e. e.rules ≡ history_of (script_view e.script).edits e.script.bundles.items) }
    ensures sound { IfOk result (λ e. IsTrue (list_all has_sound_actions (script_view e.script).edits)) }
    ensures few_edits { IfOk result (λ e. length (script_view e.script).edits ≤ most_edits) }
    ensures few_syncs { IfOk result (λ e. length e.script.syncs.items ≤ most_syncs) }
    ensures in_order { IfOk result
        (λ e. AreInOrder e.script.syncs.items (length e.script.bundles.items)) }
    ensures bundles { IfOk result
        (λ e. AreBundles e.script.bundles.items (length (script_view e.script).edits)) }
    ensures err { IsTrue S.tells → IfErr result (Explains (script_in (S.told shelf.old).holds name.now)) }
    ensures fault { IfErr result (λ r. IfReadFault r (λ n. n ≡ name.now)) }
    ensures taken { IfErr result TakesWords }
{
    let bytes = read_file(alloc, shelf, name, MOST_EDITS_BYTES, Quantity::EditsBytes)?;
    edits_in(alloc, name, &bytes)
}

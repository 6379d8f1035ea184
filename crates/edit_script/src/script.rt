ghost use Rattle.std.specs.Prelude.{◌≡◌, ℕ, ◌+◌, ◌^◌, ◌<◌, ◌≤◌, List, [], ◌∷◌, ◌++◌, length, IsTrue, IfOk, OnOk, Ok};
ghost use Rattle.std.specs.Option.{ForSome};
ghost use Rattle.std.specs.List.{list_all};
ghost use Rattle.spec_case.specs.Blocks.{AreInOrder};
ghost use Rattle.spec_flow_text.specs.Lines.{edit_in, first_word as word_at_start};
ghost use Rattle.spec_flow_text.specs.Matches.{uncommented};
ghost use Rattle.spec_flow_text.specs.declared.fault.TextFault.TheVariants.{Syntax};
ghost use Rattle.spec_input.specs.declared.fault.FileFault.TheVariants.{Line};
ghost use Rattle.spec_input.specs.Given.{Gives};
ghost use Rattle.spec_input.specs.Lines.{most_line_bytes, in_line};
ghost use Rattle.spec_input.specs.Script as scripts;
ghost use Rattle.spec_input.specs.Script.{most_edits, most_syncs, last_time, sync_time, word_alone, with_bundle, with_edit_in, with_edit, with_sync, with_begin, with_commit, with_line, script_of};
ghost use Rattle.spec_tables.specs.Bundles.{edits_through, AreBundles};
ghost use Rattle.spec_tables.specs.Edits.{Edit as SpecEdit, has_sound_actions};
ghost use Rattle.rule_tables.specs.History.{applied};
ghost use Rattle.field_text.specs.WordViews.{word_view};
ghost use Rattle.edit_script.specs.Begun.{begun_view};
ghost use Rattle.edit_script.specs.Fronts.{IsFront};
ghost use Rattle.edit_script.specs.Kept.{AreKept};
ghost use Rattle.edit_script.specs.Made.{AreRules, unboxed};
ghost use Rattle.edit_script.specs.ScriptViews.{kept_view, reading_view, read_view};
ghost use Rattle.edit_script.specs.WellFormed.{IsWellFormed};

use crate::edit_line::read_edit_behind;
use crate::line_words::{begins_with, front_of};
use crate::word_lines::{Begun, read_sync_time, read_word_alone};
use field_text::{TextFault, Word};
use line_files::{LineReader, in_line, read_lines};
use rule_tables::{Edit, SyncPoint, VersionedRules};
use spec_input::FileFault;
use std::alloc::{AllocError, Global};
use std::mem;
use std::snapshot::Snapshot;

/// The most bytes of a file of edits.
pub const MOST_BYTES: usize = 33_554_432;

/// The most edits of a file.
pub const MOST_EDITS: usize = 32_768;

// The most sync points of a file.
const MOST_SYNCS: usize = 63;

/// The most rules that the edits of a file may change: an add that replaces a rule changes two.
pub const MOST_CHANGES: u64 = 1_048_576;

/// What a file of edits says.
#[derive(Drop)]
pub struct Script {
    /// The edits, in the order of their lines. Clauses alone see them; what is kept of them is the rules that they make.
    pub edits: Vec<Snapshot<Edit>>,
    /// How many edits stand through each bundle.
    pub bundles: Vec<u32>,
    /// The sync points, in the order of their lines.
    pub syncs: Vec<SyncPoint>,
}

/// A script and the rules of all versions that its edits make, or none where they change more than `MOST_CHANGES`.
#[derive(Drop)]
pub struct ReadEdits {
    pub script: Script,
    pub rules: Option<VersionedRules>,
}

/// What is kept of the lines so far.
#[derive(Drop)]
struct Kept {
    said: Script,
    /// The rules that the bundles so far make, or none where they change more than they may. They stand in a box, since
    /// what is kept is handed on with each line.
    rules: Option<Box<VersionedRules>>,
    /// The edits since the last bundle.
    pending: Vec<Edit>,
}

/// What the lines so far say.
#[derive(Drop)]
struct Reading {
    kept: Kept,
    /// Where the bundle that the lines are in was begun, if they are in one.
    begun: Option<Begun>,
}

fn edit_in_line(alloc: Global, number: u32, line: &[u8], front: Word<'_>) -> Result<Edit, FileFault>
    requires short { length line.now ≤ most_line_bytes }
    requires front { IsFront (word_view front) (word_at_start (uncommented line.now)) }
    requires within { front.at + length front.text.now ≤ length line.now }
    ensures value { Gives (λ e. e) result (in_line number (edit_in line.now)) }
    ensures sound { IfOk result (λ e. IsTrue (has_sound_actions e)) }
{
    in_line(number, read_edit_behind(alloc, line, front))
}

fn time_in_line(number: u32, begun: Option<Begun>, line: &[u8]) -> Result<u64, FileFault>
    requires { length line.now ≤ most_line_bytes }
    ensures { Gives (λ time. time) result (in_line number (sync_time (begun_view begun) line.now)) }
{
    in_line(number, read_sync_time(begun, line))
}

fn word_in_line(number: u32, may_stand: bool, line: &[u8]) -> Result<u32, FileFault>
    requires { length line.now ≤ most_line_bytes }
    ensures { Gives (λ column. column) result (in_line number (word_alone may_stand line.now)) }
{
    in_line(number, read_word_alone(may_stand, line))
}

// Makes the next version of the rules by a bundle, if there are any. Where it changes more than it may, there are none
// from then on.
fn apply_bundle(
    rules: &mut Option<Box<VersionedRules>>,
    bundle: Vec<Edit>,
) -> Result<(), AllocError>
    requires some { 0 < length bundle.items }
    requires few { ForSome (unboxed rules.old) (λ all. applied all.edits + length bundle.items < 2 ^ 32) }
    ensures { OnOk result ((edits : List SpecEdit) (bundles : List ℕ) → AreRules edits bundles (unboxed rules.old)
        → AreRules (edits ++ bundle.items) (bundles ++ (length edits + length bundle.items) ∷ []) (unboxed rules.new)) }
{
    let Some(all) = rules else {
        return Ok(());
    };
    all.apply(bundle)?;
    if all.changes() > MOST_CHANGES {
        *rules = None;
    }
    Ok(())
}

// The script with a bundle of the edits since the last one, if there are any.
fn with_bundle(alloc: Global, mut kept: Kept) -> Result<Kept, FileFault>
    requires few { length kept.said.edits.items ≤ most_edits }
    requires kept { AreKept kept }
    ensures value { Gives kept_view result (Ok (with_bundle (kept_view kept))) }
    ensures kept { IfOk result AreKept }
{
    if kept.pending.is_empty() {
        return Ok(kept);
    }
    let through = kept.said.edits.len() as u32;
    kept.said.bundles.push(through)?;
    // Most bundles are one edit, so that the next one gets no more room than this takes.
    let bundle = mem::replace(&mut kept.pending, Vec::with_capacity(alloc, 1)?);
    apply_bundle(&mut kept.rules, bundle)?;
    Ok(kept)
}

// The script with one more edit, which is a bundle by itself where none was begun.
fn with_edit_in(
    alloc: Global,
    begun: Option<Begun>,
    edit: Edit,
    mut kept: Kept,
) -> Result<Kept, FileFault>
    requires room { length kept.said.edits.items < most_edits }
    requires kept { AreKept kept }
    ensures value { Gives kept_view result (Ok (with_edit_in (begun_view begun) edit (kept_view kept))) }
    ensures kept { IfOk result AreKept }
{
    kept.said.edits.push(Snapshot::of(&edit))?;
    kept.pending.push(edit)?;
    match begun {
        None => with_bundle(alloc, kept),
        Some(_) => Ok(kept),
    }
}

// The script with the edit of one more line.
#[tactic(auto, unfolding(spec_input::specs::Script::with_edit))]
fn with_edit(
    alloc: Global,
    number: u32,
    line: &[u8],
    front: Word<'_>,
    reading: Reading,
) -> Result<Reading, FileFault>
    requires short { length line.now ≤ most_line_bytes }
    requires front { IsFront (word_view front) (word_at_start (uncommented line.now)) }
    requires within { front.at + length front.text.now ≤ length line.now }
    requires formed { IsWellFormed (reading_view reading) }
    requires kept { AreKept reading.kept }
    ensures value { Gives reading_view result (with_edit number line.now (reading_view reading)) }
    ensures formed { IfOk result (λ r. IsWellFormed (reading_view r)) }
    ensures kept { IfOk result (λ r. AreKept r.kept) }
{
    let Reading { kept, begun } = reading;
    if kept.said.edits.len() >= MOST_EDITS {
        return Err(FileFault::TooManyEdits);
    }
    let edit = edit_in_line(alloc, number, line, front)?;
    let kept = with_edit_in(alloc, begun, edit, kept)?;
    Ok(Reading { kept, begun })
}

fn last_time(syncs: &[SyncPoint]) -> u64
    ensures { result ≡ last_time syncs.now }
{
    match syncs.last() {
        None => 0,
        Some(last) => last.time,
    }
}

// The script with the sync point of one more line.
#[tactic(auto, unfolding(spec_input::specs::Script::with_sync))]
fn with_sync(number: u32, line: &[u8], mut reading: Reading) -> Result<Reading, FileFault>
    requires short { length line.now ≤ most_line_bytes }
    requires formed { IsWellFormed (reading_view reading) }
    requires kept { AreKept reading.kept }
    ensures value { Gives reading_view result (with_sync number line.now (reading_view reading)) }
    ensures formed { IfOk result (λ r. IsWellFormed (reading_view r)) }
    ensures kept { IfOk result (λ r. AreKept r.kept) }
{
    let said = &mut reading.kept.said;
    if said.syncs.len() >= MOST_SYNCS {
        return Err(FileFault::TooManySyncs);
    }
    let time = time_in_line(number, reading.begun, line)?;
    if time < last_time(&said.syncs) {
        return Err(FileFault::SyncOrder { line: number });
    }
    let after = said.bundles.len() as u32;
    said.syncs.push(SyncPoint { time, after })?;
    Ok(reading)
}

// A bundle is begun.
#[tactic(auto, unfolding(spec_input::specs::Script::with_begin))]
fn with_begin(number: u32, line: &[u8], mut reading: Reading) -> Result<Reading, FileFault>
    requires short { length line.now ≤ most_line_bytes }
    requires formed { IsWellFormed (reading_view reading) }
    requires kept { AreKept reading.kept }
    ensures value { Gives reading_view result (with_begin number line.now (reading_view reading)) }
    ensures formed { IfOk result (λ r. IsWellFormed (reading_view r)) }
    ensures kept { IfOk result (λ r. AreKept r.kept) }
{
    let column = word_in_line(number, reading.begun.is_none(), line)?;
    reading.begun = Some(Begun {
        line: number,
        column,
    });
    Ok(reading)
}

// The bundle that was begun ends.
#[tactic(auto, unfolding(spec_input::specs::Script::with_commit))]
fn with_commit(
    alloc: Global,
    number: u32,
    line: &[u8],
    reading: Reading,
) -> Result<Reading, FileFault>
    requires short { length line.now ≤ most_line_bytes }
    requires formed { IsWellFormed (reading_view reading) }
    requires kept { AreKept reading.kept }
    ensures value { Gives reading_view result (with_commit number line.now (reading_view reading)) }
    ensures formed { IfOk result (λ r. IsWellFormed (reading_view r)) }
    ensures kept { IfOk result (λ r. AreKept r.kept) }
{
    word_in_line(number, reading.begun.is_some(), line)?;
    let kept = with_bundle(alloc, reading.kept)?;
    Ok(Reading { kept, begun: None })
}

// What reads the lines of a file of edits.
#[derive(Drop)]
struct ScriptReader {
    alloc: Global,
}

impl LineReader for ScriptReader {
    type Read = Reading;

    ghost Said = { scripts.Reading };

    ghost said = { reading_view };

    ghost is_kept = { λ r. IsWellFormed (reading_view r) × AreKept r.kept };

    ghost after_line = { λ _. with_line };

    // The script with what one more line says.
    #[tactic(auto, unfolding(spec_input::specs::Script::with_line))]
    fn read_line(&self, number: u32, line: &[u8], reading: Reading) -> Result<Reading, FileFault> {
        let front = front_of(line);
        if front.text.is_empty() {
            return Ok(reading);
        }
        if begins_with("sync", line, front) {
            with_sync(number, line, reading)
        } else if begins_with("begin", line, front) {
            with_begin(number, line, reading)
        } else if begins_with("commit", line, front) {
            with_commit(self.alloc, number, line, reading)
        } else {
            with_edit(self.alloc, number, line, front, reading)
        }
    }
}

// What no line says.
fn nothing_read(alloc: Global) -> Result<Reading, AllocError>
    ensures view { IfOk result (λ r. reading_view r ≡ scripts.nothing_read) }
    ensures formed { IfOk result (λ r. IsWellFormed (reading_view r)) }
    ensures kept { IfOk result (λ r. AreKept r.kept) }
{
    let said = Script {
        edits: Vec::new(alloc),
        bundles: Vec::new(alloc),
        syncs: Vec::new(alloc),
    };
    let rules = Box::new(alloc, VersionedRules::new(alloc))?;
    Ok(Reading {
        kept: Kept {
            said,
            rules: Some(rules),
            pending: Vec::new(alloc),
        },
        begun: None,
    })
}

// Rules out of their box.
fn out_of_box(rules: Option<Box<VersionedRules>>) -> Option<VersionedRules>
    ensures { result ≡ unboxed rules }
{
    match rules {
        None => None,
        Some(rules) => Some(Box::into_inner(rules)),
    }
}

// What is wrong with a file that ends in a bundle.
fn left_open(begun: Begun) -> FileFault
    ensures { result ≡ Line begun.line (Syntax begun.column) }
{
    FileFault::Line {
        line: begun.line,
        why: TextFault::Syntax { col: begun.column },
    }
}

/// The script of the bytes of a file, of which there are at most `MOST_BYTES`, and the rules of all versions that its
/// edits make.
///
/// A fault is the first of the file. Lines of it are counted from 1, and so are columns.
#[tactic(auto, unfolding(spec_input::specs::Script::script_of))]
pub fn read_script(alloc: Global, bytes: &[u8]) -> Result<ReadEdits, FileFault>
    requires { length bytes.now ≤ 33_554_432 }
    ensures script { Gives read_view result (script_of bytes.now) }
    ensures rules { IfOk result (λ r. AreRules (read_view r).edits (read_view r).bundles r.rules) }
    ensures sound { IfOk result (λ r. IsTrue (list_all has_sound_actions (read_view r).edits)) }
    ensures edit_count { IfOk result (λ r. length (read_view r).edits ≤ most_edits) }
    ensures sync_count { IfOk result (λ r. length (read_view r).syncs ≤ most_syncs) }
    ensures in_order { IfOk result
        (λ r. AreInOrder (read_view r).syncs (length (read_view r).bundles)) }
    ensures bundles { IfOk result (λ r. AreBundles (read_view r).bundles (length (read_view r).edits)) }
{
    let reading = read_lines(&ScriptReader { alloc }, bytes, nothing_read(alloc)?)?;
    match reading.begun {
        None => Ok(ReadEdits {
            script: reading.kept.said,
            rules: out_of_box(reading.kept.rules),
        }),
        Some(begun) => Err(left_open(begun)),
    }
}

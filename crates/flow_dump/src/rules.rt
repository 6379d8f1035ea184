ghost use Rattle.std.specs.Prelude.{◌≡◌, ◌≤◌, All, IsTrue, length};
ghost use Rattle.std.specs.List.{flat_map, list_all, range_with_len};
ghost use Rattle.spec_tables.specs.Edits.{has_sound_actions};
ghost use Rattle.spec_run.specs.Rules.{rules_text};
ghost use Rattle.edge_io.specs.declared.outside.InUse.TheVariants.{Nothing, Created};
ghost use Rattle.edge_io.specs.Written.{WritesAll, WritesFile};
ghost use Rattle.rule_tables.specs.History.{applied, history_of};
ghost use Rattle.dump_lines.specs.Live.{IsOfEdits, IsLiveIn, live_line};
ghost use Rattle.flow_dump.specs.RuleTexts.{live_text, gone_text, lines_of};

use crate::sums::count_rules;
use dump_lines::rules::{RulePlace, is_gone, live_in_order, push_gone, push_live};
use edge_io::{Failed, Shelf, write_all, write_file};
use rule_tables::VersionedRules;
use run_boards::Finished;
use run_case::{Case, RunData};
use spec_run::RuleCounts;
use std::alloc::Global;

// Writes the line of a rule that is live.
fn write_live<S: Shelf>(
    shelf: &mut S,
    line: &mut String,
    rules: &VersionedRules,
    counts: &[RuleCounts],
    number: u32,
) -> Result<(), Failed>
    requires created { S.in_use shelf.old ≡ Created }
    requires of_edits { IsOfEdits rules.now }
    requires live { IsLiveIn rules.now number }
    requires counted { length counts.now ≡ applied rules.now.edits }
    ensures { WritesAll S.Shelf shelf.old shelf.new (live_text rules.now counts.now number) result }
{
    line.clear();
    push_live(line, rules, number, counts[number as usize - 1])?;
    write_all(shelf, line.as_bytes())
}

// Writes the line of a rule if it is gone.
fn write_if_gone<S: Shelf>(
    shelf: &mut S,
    line: &mut String,
    rules: &VersionedRules,
    counts: &[RuleCounts],
    number: u32,
) -> Result<(), Failed>
    requires created { S.in_use shelf.old ≡ Created }
    requires of_edits { IsOfEdits rules.now }
    requires first { 1 ≤ number }
    requires last { number ≤ length counts.now }
    ensures { WritesAll S.Shelf shelf.old shelf.new (gone_text rules.now counts.now number) result }
{
    line.clear();
    if is_gone(rules, number) {
        push_gone(line, number, counts[number as usize - 1])?;
    }
    write_all(shelf, line.as_bytes())
}

// Writes the lines of the live rules, in this order.
fn write_live_rules<S: Shelf>(
    shelf: &mut S,
    line: &mut String,
    rules: &VersionedRules,
    counts: &[RuleCounts],
    order: &[RulePlace],
) -> Result<(), Failed>
    requires created { S.in_use shelf.old ≡ Created }
    requires of_edits { IsOfEdits rules.now }
    requires live { All (λ p. IsLiveIn rules.now p.number) order.now }
    requires counted { length counts.now ≡ applied rules.now.edits }
    ensures { WritesAll S.Shelf shelf.old shelf.new
        (flat_map (λ p. live_text rules.now counts.now p.number) order.now) result }
{
    'places: for place in order {
        write_live(shelf, line, rules, counts, place.number)?;
    }
    Ok(())
}

// Writes the lines of the rules that are gone, by their numbers.
fn write_gone_rules<S: Shelf>(
    shelf: &mut S,
    line: &mut String,
    rules: &VersionedRules,
    counts: &[RuleCounts],
) -> Result<(), Failed>
    requires created { S.in_use shelf.old ≡ Created }
    requires of_edits { IsOfEdits rules.now }
    requires counted { length counts.now ≡ applied rules.now.edits }
    ensures { WritesAll S.Shelf shelf.old shelf.new
        (flat_map (gone_text rules.now counts.now) (range_with_len 1 (applied rules.now.edits))) result }
{
    'numbers: for before in 0..rules.edits() {
        write_if_gone(shelf, line, rules, counts, before + 1)?;
    }
    Ok(())
}

// Writes all lines.
fn write_lines<S: Shelf>(
    shelf: &mut S,
    line: &mut String,
    rules: &VersionedRules,
    counts: &[RuleCounts],
    order: &[RulePlace],
) -> Result<(), Failed>
    requires created { S.in_use shelf.old ≡ Created }
    requires of_edits { IsOfEdits rules.now }
    requires live { All (λ p. IsLiveIn rules.now p.number) order.now }
    requires counted { length counts.now ≡ applied rules.now.edits }
    ensures { WritesAll S.Shelf shelf.old shelf.new
        (lines_of rules.now counts.now order.now) result }
{
    write_live_rules(shelf, line, rules, counts, order)?;
    write_gone_rules(shelf, line, rules, counts)
}

/// Writes the rules of a run with their counts to a new file of this name, and closes it: first those that are live in
/// the last version, by table, falling priority and number, and then those that are gone.
///
/// It takes memory for the counts of each rule, for the order of the live ones, and for one line at a time.
///
/// # Errors
///
/// - `Fault`: the shelf failed in creating, writing or closing the file, and its count of writing rose.
/// - `OutOfMemory`: there was no memory for counts, the order or a line, or for the shelf.
///
/// After an error the file was not created, or has a prefix of the text. It may then still be in use.
pub fn write_rules<C: Case, S: Shelf>(
    alloc: Global,
    shelf: &mut S,
    name: &str,
    run: &RunData<C>,
    rules: &VersionedRules,
    finished: &Finished<C>,
) -> Result<(), Failed>
    requires in_use { S.in_use shelf.old ≡ Nothing }
    requires edits { rules.now ≡ history_of C.run.edits C.run.bundles }
    requires sound { IsTrue (list_all has_sound_actions C.run.edits) }
    ensures file { let text = rules_text C.run finished.now in
        WritesFile S.Shelf shelf.old shelf.new (name.now, text) result }
{
    let _ = run.edit_count();
    let counts = count_rules(alloc, run, finished.boards())?;
    let order = live_in_order(alloc, rules)?;
    let counts = counts.as_slice();
    let order = order.as_slice();
    let mut line = String::new(alloc);
    write_file(
        shelf,
        name,
        |shelf: &mut S| -> Result<(), Failed>
            requires created { S.in_use shelf.old ≡ Created }
            requires of_edits { IsOfEdits rules.now }
            requires live { All (λ p. IsLiveIn rules.now p.number) order.now }
            requires counted { length counts.now ≡ applied rules.now.edits }
            ensures { WritesAll S.Shelf shelf.old shelf.new
                (lines_of rules.entry.now counts.entry.now order.entry.now) result }
        { write_lines(shelf, &mut line, rules, counts, order) },
    )
}

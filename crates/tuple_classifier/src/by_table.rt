//! The rules of all tables.

ghost use Rattle.std.specs.Prelude.{◌≡◌, ◌+◌, ◌<◌, ◌^◌, ℕ, List, length, OnOk, OnErr};
ghost use Rattle.spec_tables.specs.Rules.{Rule};
ghost use Rattle.rule_tables.specs.Views.{match_view};
ghost use Rattle.tuple_classifier.specs.ByTable.{AreClassified, HaveNoRule, HaveRuleOf};
ghost use Rattle.tuple_classifier.specs.Updates.{KeepsRules, AddsRuleIn, TakesRuleIn};

use crate::table::Table;
use rule_tables::Match;
use staged_lookup::Rank;
use std::alloc::{AllocError, Global};

/// Adds a rule to a table, where none of the tables has one of its number, and all have fewer than 2^32 - 1. The only error
/// is out of memory, and then they have the same rules.
pub(crate) fn insert_in(
    alloc: Global,
    tables: &mut Vec<Table>,
    table: u8,
    matching: &Match,
    rank: Rank,
) -> Result<(), AllocError>
    requires new { HaveNoRule rank.number tables.old.items }
    requires few { (rules : List Rule) × (AreClassified tables.old.items rules)
        × (length rules + 1 < 2 ^ 32) }
    ensures ok { OnOk result (AddsRuleIn table matching.now rank
        (AreClassified tables.old.items) (AreClassified tables.new.items)) }
    ensures err { OnErr result
        (KeepsRules (AreClassified tables.old.items) (AreClassified tables.new.items)) }
{
    grow(alloc, tables, table)?;
    tables[table as usize].insert(alloc, matching, rank)
}

/// Makes the tables up to one, without rules, where they are missing.
fn grow(alloc: Global, tables: &mut Vec<Table>, table: u8) -> Result<(), AllocError>
    ensures rules { KeepsRules (AreClassified tables.old.items) (AreClassified tables.new.items) }
    ensures numbers { (number : ℕ) → HaveNoRule number tables.old.items
        → HaveNoRule number tables.new.items }
    ensures there { OnOk result (table < length tables.new.items) }
{
    'tables: while tables.len() <= table as usize {
        tables.push(Table::new(alloc))?;
    }
    Ok(())
}

/// Takes a rule out of a table. It takes no memory.
pub(crate) fn take_from(tables: &mut Vec<Table>, table: u8, matching: &Match, rank: Rank)
    requires { HaveRuleOf tables.old.items table (match_view matching.now) rank }
    ensures { TakesRuleIn table matching.now rank
        (AreClassified tables.old.items) (AreClassified tables.new.items) }
{
    let table = table as usize;
    if table < tables.len() {
        tables[table].take(matching, rank);
    }
}

//! The rules of all tables, as they are led from one version to the next: what came is put in, and what went is taken
//! out.

ghost use Rattle.std.specs.Prelude.{◌≡◌, ◌+◌, ◌<◌, ◌≤◌, List, length, OnOk, OnErr};
ghost use Rattle.spec_tables.specs.Rules as seen;
ghost use Rattle.rule_tables.specs.Bare.{bare_view, told};
ghost use Rattle.staged_lookup.specs.Ranks.{rank_of};
ghost use Rattle.tuple_classifier.specs.ByTable.{AreClassified};
ghost use Rattle.tuple_classifier.specs.Changing.{HaveCome, ForComing, SomeComing, HaveGone, ForGoing, SomeGoing};
ghost use Rattle.tuple_classifier.specs.Updates.{KeepsRules};

use crate::by_table::{insert_in, take_from};
use crate::table::Table;
use rule_tables::{Change, Rule};
use staged_lookup::Rank;
use std::alloc::{AllocError, Global};

/// What decides between a rule and others that match.
fn rank_of(rule: &Rule) -> Rank
    ensures { result ≡ rank_of (bare_view rule.now) }
{
    Rank {
        priority: rule.priority,
        number: rule.number,
    }
}

/// Puts in all that came. The only error is out of memory, and then the rules are as before.
pub(crate) fn put_all(
    alloc: Global,
    tables: &mut Vec<Table>,
    change: &Change<'_>,
) -> Result<(), AllocError>
    requires { SomeComing change.now (HaveCome change.now 0 tables.old.items) }
    ensures ok { OnOk result (ForComing change.now (λ rules.
        HaveCome change.now 0 tables.old.items rules
        → HaveCome change.now (length change.now.came) tables.new.items rules)) }
    ensures err { OnErr result (ForComing change.now (λ rules.
        HaveCome change.now 0 tables.old.items rules → HaveCome change.now 0 tables.new.items rules)) }
{
    'came: for place in 0..change.came_len() {
        if let Err(error) = put_at(alloc, tables, change, place) {
            take_back(tables, change, place);
            return Err(error);
        }
    }
    Ok(())
}

/// Puts in the rule that came, at a place that may tell of none.
fn put_at(
    alloc: Global,
    tables: &mut Vec<Table>,
    change: &Change<'_>,
    place: usize,
) -> Result<(), AllocError>
    requires within { place < length change.now.came }
    requires can { SomeComing change.now (HaveCome change.now place tables.old.items) }
    ensures ok { OnOk result (ForComing change.now (λ rules.
        HaveCome change.now place tables.old.items rules
        → HaveCome change.now (place + 1) tables.new.items rules)) }
    ensures err { OnErr result
        (KeepsRules (AreClassified tables.old.items) (AreClassified tables.new.items)) }
{
    match change.came(place) {
        Some(rule) => insert_in(alloc, tables, rule.table, &rule.matching, rank_of(rule)),
        None => Ok(()),
    }
}

/// Takes the first so many that came out again, the last first. It takes no memory.
fn take_back(tables: &mut Vec<Table>, change: &Change<'_>, count: usize)
    requires within { count ≤ length change.now.came }
    requires can { SomeComing change.now (HaveCome change.now count tables.old.items) }
    ensures { ForComing change.now (λ rules.
        HaveCome change.now count tables.old.items rules → HaveCome change.now 0 tables.new.items rules) }
{
    'came: for place in (0..count).rev() {
        take_back_at(tables, change, place);
    }
}

/// Takes the rule that came out again, at a place that may tell of none. Those behind it are out already.
fn take_back_at(tables: &mut Vec<Table>, change: &Change<'_>, place: usize)
    requires within { place < length change.now.came }
    requires can { SomeComing change.now (HaveCome change.now (place + 1) tables.old.items) }
    ensures { ForComing change.now (λ rules.
        HaveCome change.now (place + 1) tables.old.items rules
        → HaveCome change.now place tables.new.items rules) }
{
    if let Some(rule) = change.came(place) {
        take_from(tables, rule.table, &rule.matching, rank_of(rule));
    }
}

/// Takes out all that went. It takes no memory.
pub(crate) fn take_all(tables: &mut Vec<Table>, change: &Change<'_>)
    requires { SomeGoing change.now (HaveGone change.now 0 tables.old.items) }
    ensures { ForGoing change.now (λ rules.
        HaveGone change.now 0 tables.old.items rules
        → HaveGone change.now (length change.now.went) tables.new.items rules) }
{
    'went: for place in 0..change.went_len() {
        take_at(tables, change, place);
    }
}

/// Takes out the rule that went, at a place that may tell of none.
fn take_at(tables: &mut Vec<Table>, change: &Change<'_>, place: usize)
    requires within { place < length change.now.went }
    requires can { SomeGoing change.now (HaveGone change.now place tables.old.items) }
    ensures { ForGoing change.now (λ rules.
        HaveGone change.now place tables.old.items rules
        → HaveGone change.now (place + 1) tables.new.items rules) }
{
    if let Some(rule) = change.went(place) {
        take_from(tables, rule.table, &rule.matching, rank_of(rule));
    }
}

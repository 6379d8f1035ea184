ghost use Rattle.std.specs.Prelude.{◌≡◌, All, IsTrue, IfOk, OnOk, Some, map};
ghost use Rattle.std.specs.Option.{option_map};
ghost use Rattle.spec_tables.specs.Live.{is_live, rule_numbered};
ghost use Rattle.spec_run.specs.Rules.{in_order};
ghost use Rattle.text_numbers.specs.Added.{Adds};
ghost use Rattle.dump_lines.specs.Live.{IsLiveIn, IsOfEdits, live_in, is_gone_in, live_line};
ghost use Rattle.dump_lines.specs.Places.{place_of};
ghost use Rattle.dump_lines.specs.Order.{places_in_order};

use crate::rules::places::RulePlace;
use crate::rules::printing::push_rule;
use rule_tables::VersionedRules;
use spec_run::RuleCounts;
use std::alloc::{AllocError, Global};
use std::cmp::Reverse;

// The place of a live rule.
fn place(rules: &VersionedRules, number: u32) -> RulePlace
    requires of_edits { IsOfEdits rules.now }
    requires live { IsTrue (is_live number (live_in rules.now)) }
    ensures { option_map place_of (rule_numbered number (live_in rules.now)) ≡ Some result }
{
    match rules.rule(number) {
        Some(rule) => RulePlace {
            table: rule.table,
            priority: Reverse(rule.priority),
            number: rule.number,
        },
        None => unreachable!(),
    }
}

// The places of the live rules, by their numbers.
fn live_places(alloc: Global, rules: &VersionedRules) -> Result<Vec<RulePlace>, AllocError>
    requires { IsOfEdits rules.now }
    ensures { IfOk result (λ v. v.items ≡ map place_of (live_in rules.now)) }
{
    let version = rules.version();
    let last = rules.edits();
    let mut places = Vec::new(alloc);
    'numbers: for before in 0..last {
        let number = before + 1;
        if rules.live(version, number) {
            places.push(place(rules, number))?;
        }
    }
    Ok(places)
}

fn sort_places(places: &mut Vec<RulePlace>) -> Result<(), AllocError>
    ensures { OnOk result (places.new.items ≡ places_in_order places.old.items) }
{
    places.sort()
}

/// The places of the rules that are live in the last version, in the order of the dump: by table, then by falling
/// priority, then by number.
///
/// It takes memory for each rule that is live; there may be none.
pub fn live_in_order(alloc: Global, rules: &VersionedRules) -> Result<Vec<RulePlace>, AllocError>
    requires { IsOfEdits rules.now }
    ensures places { IfOk result (λ v. v.items ≡ map place_of (in_order (live_in rules.now))) }
    ensures live { IfOk result (λ v. All (λ p. IsLiveIn rules.now p.number) v.items) }
{
    let mut places = live_places(alloc, rules)?;
    sort_places(&mut places)?;
    Ok(places)
}

/// Adds the line of a rule that is live in the last version, with its counts.
///
/// Where there is no memory, the text has what it had, and perhaps a part of the line.
pub fn push_live(
    line: &mut String,
    rules: &VersionedRules,
    number: u32,
    counts: RuleCounts,
) -> Result<(), AllocError>
    requires of_edits { IsOfEdits rules.now }
    requires live { IsTrue (is_live number (live_in rules.now)) }
    ensures { Adds line.old line.new (live_line rules.now counts number) result }
{
    let version = rules.version();
    match rules.rule(number) {
        Some(rule) => push_rule(
            line,
            rule,
            rules.cookie(version, number),
            rules.actions(version, number),
            counts,
        ),
        None => unreachable!(),
    }
}

/// Whether an edit added the rule of a number, and it isn't live in the last version.
pub fn is_gone(rules: &VersionedRules, number: u32) -> bool
    requires { IsOfEdits rules.now }
    ensures { result ≡ is_gone_in rules.now number }
{
    // Most rules are live, and then it doesn't matter that an edit added them.
    !rules.live(rules.version(), number) && rules.rule(number).is_some()
}

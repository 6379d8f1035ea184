//! The lines of lookups.
ghost use Rattle.std.specs.Prelude.{◌++◌, [], All, IsTrue, codes, Some};
ghost use Rattle.std.specs.List.{flat_map};
ghost use Rattle.std.specs.Fmt.{decimal};
ghost use Rattle.spec_actions.specs.Sound.{AreSound};
ghost use Rattle.spec_tables.specs.Live.{is_live, rule_numbered};
ghost use Rattle.spec_flow_text.specs.Printed.{match_printed, actions_printed};
ghost use Rattle.rule_tables.specs.Views.{match_view};
ghost use Rattle.text_numbers.specs.Added.{Adds};
ghost use Rattle.dump_lines.specs.Live.{IsOfEdits, live_in, live_view};
ghost use Rattle.spec_tools.specs.TraceTexts.{after_space, winner_text, winner_of, lookup_line};
ghost use Rattle.ofp_trace.specs.Winners.{HasLiveWinner};
ghost use Rattle.ofp_trace.specs.Pieces.{done_text, stated_text, looked_text};

use action_text::print_actions;
use match_text::print_match;
use rule_tables::{Match, OfAction, Rule, VersionedRules};
use spec_tools::Lookup;
use std::alloc::AllocError;
use text_numbers::{print_decimal, print_word};

fn print_number_after(out: &mut String, start: &str, number: u128) -> Result<(), AllocError>
    ensures { Adds out.old out.new (start.now ++ decimal number) result }
{
    print_word(out, start)?;
    print_decimal(out, number)
}

// The match after a space, or nothing where it states nothing.
fn print_match_after_space(out: &mut String, matching: &Match) -> Result<(), AllocError>
    ensures { Adds out.old out.new (after_space (match_printed (match_view matching.now))) result }
{
    print_word(out, " ")?;
    let end = out.len();
    print_match(matching, out)?;
    if out.len() == end {
        let _ = out.pop();
    }
    Ok(())
}

fn print_done(out: &mut String, actions: &[OfAction]) -> Result<(), AllocError>
    requires { AreSound actions.now }
    ensures { Adds out.old out.new (done_text actions.now) result }
{
    print_word(out, " actions=")?;
    print_actions(actions, out)
}

// The priority, the match and the actions.
fn print_stated(out: &mut String, rule: &Rule, actions: &[OfAction]) -> Result<(), AllocError>
    requires { AreSound actions.now }
    ensures { Adds out.old out.new
        (stated_text rule.now.priority (match_view rule.now.matching) actions.now) result }
{
    print_number_after(out, " priority=", u128::from(rule.priority))?;
    print_match_after_space(out, &rule.matching)?;
    print_done(out, actions)
}

// A rule, with the cookie and the actions that it has.
fn print_rule(
    out: &mut String,
    rule: &Rule,
    cookie: u64,
    actions: &[OfAction],
) -> Result<(), AllocError>
    requires { AreSound actions.now }
    ensures { Adds out.old out.new
        (winner_text (Some (live_view rule.now cookie actions.now))) result }
{
    let _ = cookie;
    print_number_after(out, " rule=", u128::from(rule.number))?;
    print_stated(out, rule, actions)
}

// The live rule of a number.
fn print_live(out: &mut String, rules: &VersionedRules, number: u32) -> Result<(), AllocError>
    requires of_edits { IsOfEdits rules.now }
    requires live { IsTrue (is_live number (live_in rules.now)) }
    ensures { Adds out.old out.new
        (winner_text (rule_numbered number (live_in rules.now))) result }
{
    let version = rules.version();
    match rules.rule(number) {
        Some(rule) => print_rule(
            out,
            rule,
            rules.cookie(version, number),
            rules.actions(version, number),
        ),
        None => unreachable!(),
    }
}

// The rule that won, or that none did.
fn print_winner(out: &mut String, rules: &VersionedRules, lookup: &Lookup) -> Result<(), AllocError>
    requires of_edits { IsOfEdits rules.now }
    requires live { HasLiveWinner (live_in rules.now) lookup.now }
    ensures { Adds out.old out.new
        (winner_text (winner_of (live_in rules.now) lookup.now)) result }
{
    match lookup.rule {
        None => print_word(out, " no match"),
        Some(number) => print_live(out, rules, number),
    }
}

// The line of a lookup, but for its line feed.
fn print_looked(out: &mut String, rules: &VersionedRules, lookup: &Lookup) -> Result<(), AllocError>
    requires of_edits { IsOfEdits rules.now }
    requires live { HasLiveWinner (live_in rules.now) lookup.now }
    ensures { Adds out.old out.new (looked_text (live_in rules.now) lookup.now) result }
{
    print_decimal(out, u128::from(lookup.depth))?;
    print_number_after(out, " table=", u128::from(lookup.table))?;
    print_winner(out, rules, lookup)
}

fn print_lookup(out: &mut String, rules: &VersionedRules, lookup: &Lookup) -> Result<(), AllocError>
    requires of_edits { IsOfEdits rules.now }
    requires live { HasLiveWinner (live_in rules.now) lookup.now }
    ensures { Adds out.old out.new (lookup_line (live_in rules.now) lookup.now) result }
{
    print_looked(out, rules, lookup)?;
    print_word(out, "\n")
}

/// Adds a line for each lookup, in their order.
pub(crate) fn print_lookups(
    out: &mut String,
    rules: &VersionedRules,
    lookups: &[Lookup],
) -> Result<(), AllocError>
    requires of_edits { IsOfEdits rules.now }
    requires live { All (HasLiveWinner (live_in rules.now)) lookups.now }
    ensures { Adds out.old out.new
        (flat_map (lookup_line (live_in rules.now)) lookups.now) result }
{
    'lookups: for lookup in lookups {
        print_lookup(out, rules, lookup)?;
    }
    Ok(())
}

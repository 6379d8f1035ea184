ghost use Rattle.std.specs.Prelude.{◌++◌, codes};
ghost use Rattle.std.specs.Fmt.{decimal};
ghost use Rattle.spec_actions.specs.Sound.{AreSound};
ghost use Rattle.spec_flow_text.specs.Printed.{match_printed};
ghost use Rattle.rule_tables.specs.Views.{match_view};
ghost use Rattle.text_numbers.specs.Added.{Adds};
ghost use Rattle.spec_run.specs.Rules.{after_comma, counts_text, rule_line_with, gone_line_with};
ghost use Rattle.dump_lines.specs.Live.{live_view};
ghost use Rattle.dump_lines.specs.Pieces.{done_text, stated_text, counted_text, rule_text, gone_text};

use action_text::print_actions;
use match_text::print_match;
use rule_tables::{Match, OfAction, Rule};
use spec_run::RuleCounts;
use std::alloc::AllocError;
use text_numbers::{print_decimal, print_hexadecimal, print_word};

fn push_number_after(line: &mut String, start: &str, number: u128) -> Result<(), AllocError>
    ensures { Adds line.old line.new (start.now ++ decimal number) result }
{
    print_word(line, start)?;
    print_decimal(line, number)
}

// Both counts, with a text between them.
fn push_counts(line: &mut String, between: &str, counts: RuleCounts) -> Result<(), AllocError>
    ensures { Adds line.old line.new (counts_text between.now counts) result }
{
    push_number_after(line, "n_packets=", counts.packets)?;
    print_word(line, between)?;
    push_number_after(line, "n_bytes=", counts.bytes)
}

// The match after a comma, or nothing where it states nothing.
fn push_match(line: &mut String, matching: &Match) -> Result<(), AllocError>
    ensures { Adds line.old line.new (after_comma (match_printed (match_view matching.now))) result }
{
    print_word(line, ",")?;
    let end = line.len();
    print_match(matching, line)?;
    if line.len() == end {
        let _ = line.pop();
    }
    Ok(())
}

// The actions and the number.
fn push_done(
    line: &mut String,
    rule: &Rule,
    cookie: u64,
    actions: &[OfAction],
) -> Result<(), AllocError>
    requires { AreSound actions.now }
    ensures { Adds line.old line.new (done_text (live_view rule.now cookie actions.now)) result }
{
    let _ = cookie;
    print_word(line, " actions=")?;
    print_actions(actions, line)?;
    push_number_after(line, " # rule=", u128::from(rule.number))
}

// What stands behind the counts.
fn push_stated(
    line: &mut String,
    rule: &Rule,
    cookie: u64,
    actions: &[OfAction],
) -> Result<(), AllocError>
    requires { AreSound actions.now }
    ensures { Adds line.old line.new (stated_text (live_view rule.now cookie actions.now)) result }
{
    push_number_after(line, ", priority=", u128::from(rule.priority))?;
    push_match(line, &rule.matching)?;
    push_done(line, rule, cookie, actions)
}

// The counts, and what stands behind them.
fn push_counted(
    line: &mut String,
    rule: &Rule,
    cookie: u64,
    actions: &[OfAction],
    counts: RuleCounts,
) -> Result<(), AllocError>
    requires { AreSound actions.now }
    ensures { Adds line.old line.new
        (counted_text counts (live_view rule.now cookie actions.now)) result }
{
    print_word(line, ", ")?;
    push_counts(line, ", ", counts)?;
    push_stated(line, rule, cookie, actions)
}

// All but the line feed.
fn push_text(
    line: &mut String,
    rule: &Rule,
    cookie: u64,
    actions: &[OfAction],
    counts: RuleCounts,
) -> Result<(), AllocError>
    requires { AreSound actions.now }
    ensures { Adds line.old line.new
        (rule_text counts (live_view rule.now cookie actions.now)) result }
{
    print_word(line, "cookie=")?;
    print_hexadecimal(line, u128::from(cookie))?;
    push_number_after(line, ", table=", u128::from(rule.table))?;
    push_counted(line, rule, cookie, actions, counts)
}

/// Adds the line of a rule that is live, with the cookie and the actions that it has, and with its counts.
///
/// Where there is no memory, the text has what it had, and perhaps a part of the line.
pub fn push_rule(
    line: &mut String,
    rule: &Rule,
    cookie: u64,
    actions: &[OfAction],
    counts: RuleCounts,
) -> Result<(), AllocError>
    requires { AreSound actions.now }
    ensures { Adds line.old line.new
        (rule_line_with counts (live_view rule.now cookie actions.now)) result }
{
    push_text(line, rule, cookie, actions, counts)?;
    print_word(line, "\n")
}

fn push_gone_text(line: &mut String, number: u32, counts: RuleCounts) -> Result<(), AllocError>
    ensures { Adds line.old line.new (gone_text counts number) result }
{
    push_number_after(line, "# gone rule=", u128::from(number))?;
    print_word(line, " ")?;
    push_counts(line, " ", counts)
}

/// Adds the line of a rule that is gone, with its counts.
///
/// Where there is no memory, the text has what it had, and perhaps a part of the line.
pub fn push_gone(line: &mut String, number: u32, counts: RuleCounts) -> Result<(), AllocError>
    ensures { Adds line.old line.new (gone_line_with counts number) result }
{
    push_gone_text(line, number, counts)?;
    print_word(line, "\n")
}

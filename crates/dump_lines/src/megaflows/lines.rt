ghost use Rattle.std.specs.Prelude.{◌≡◌, ◌++◌, [], ◌∷◌, codes, OnOk, OnErr, string_bytes};
ghost use Rattle.std.specs.Fmt.{decimal};
ghost use Rattle.spec_flow_text.specs.DpTextPrinted.{dp_actions_printed};
ghost use Rattle.spec_flow_text.specs.Within.{AreWithinFields};
ghost use Rattle.spec_run.specs.Megaflows.{told, and_told, time_text, visits_text, megaflow_match, megaflow_match_text, megaflow_line};
ghost use Rattle.text_numbers.specs.Added.{Adds};
ghost use Rattle.dump_lines.specs.Views.{entry_with};
ghost use Rattle.dump_lines.specs.Parts.{name_text, counts_text, decided_text, entry_text, actions_text};

use crate::megaflows::matches::print_megaflow_match;
use crate::megaflows::times::print_time;
use crate::megaflows::visits::print_visits;
use action_text::print_dp_actions;
use megaflow_table::Entry;
use spec_actions::DpAction;
use std::alloc::AllocError;
use text_numbers::{print_decimal, print_word};

// A word and a number.
fn print_number(out: &mut String, word: &str, number: u64) -> Result<(), AllocError>
    ensures { Adds out.old out.new (word.now ++ decimal number) result }
{
    print_word(out, word)?;
    print_decimal(out, u128::from(number))
}

// Which megaflow of which port it is, and of which version.
fn print_name(out: &mut String, port: u16, entry: &Entry) -> Result<(), AllocError>
    ensures { Adds out.old out.new (name_text port (entry_with [] entry.now)) result }
{
    print_number(out, "port=", u64::from(port))?;
    print_number(out, " entry=", u64::from(entry.number))?;
    print_number(out, " version=", u64::from(entry.version))
}

// What it decided, and what of that its rules are still due.
fn print_counts(out: &mut String, entry: &Entry) -> Result<(), AllocError>
    ensures { Adds out.old out.new (counts_text (entry_with [] entry.now)) result }
{
    print_number(out, " packets=", entry.packets)?;
    print_number(out, " bytes=", entry.bytes)?;
    print_number(out, " owed_packets=", entry.owed_packets)?;
    print_number(out, " owed_bytes=", entry.owed_bytes)
}

fn print_used(out: &mut String, used: u64) -> Result<(), AllocError>
    ensures { Adds out.old out.new (and_told (codes "used") (time_text used)) result }
{
    print_word(out, " used=")?;
    print_time(out, used)
}

fn print_visited(out: &mut String, visits: &[u32]) -> Result<(), AllocError>
    ensures { Adds out.old out.new (and_told (codes "visits") (visits_text visits.now)) result }
{
    print_word(out, " visits=")?;
    print_visits(out, visits)
}

fn print_match(out: &mut String, entry: &Entry) -> Result<(), AllocError>
    ensures { Adds out.old out.new
        (and_told (codes "match") (megaflow_match_text (megaflow_match (entry_with [] entry.now)))) result }
{
    print_word(out, " match=")?;
    print_megaflow_match(out, &entry.key, &entry.mask)
}

// When it was last used, the rules that it visits, and its match.
fn print_decided(out: &mut String, entry: &Entry) -> Result<(), AllocError>
    ensures { Adds out.old out.new (decided_text (entry_with [] entry.now)) result }
{
    print_used(out, entry.used)?;
    print_visited(out, entry.visits.as_slice())?;
    print_match(out, entry)
}

// All but the actions.
fn print_entry(out: &mut String, port: u16, entry: &Entry) -> Result<(), AllocError>
    ensures { Adds out.old out.new (entry_text port (entry_with [] entry.now)) result }
{
    print_name(out, port, entry)?;
    print_counts(out, entry)?;
    print_decided(out, entry)
}

// The actions, and the line feed.
fn print_actions(out: &mut String, actions: &[DpAction]) -> Result<(), AllocError>
    requires { AreWithinFields actions.now }
    ensures { Adds out.old out.new (actions_text actions.now) result }
{
    print_word(out, " actions=")?;
    print_dp_actions(actions, out)?;
    print_word(out, "\n")
}

/// Adds the line of a megaflow of a port, which has these actions, with its line feed.
///
/// The only error is out of memory, and then the string has what it had, and perhaps a part of the line.
pub fn push_megaflow(
    line: &mut String,
    port: u16,
    entry: &Entry,
    actions: &[DpAction],
) -> Result<(), AllocError>
    requires { AreWithinFields actions.now }
    ensures { Adds line.old line.new
        (megaflow_line port (entry_with actions.now entry.now)) result }
{
    print_entry(line, port, entry)?;
    print_actions(line, actions)
}

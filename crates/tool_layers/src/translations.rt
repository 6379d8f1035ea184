//! `translations EDITS TRACE PORT PORTS.. [--rounds=N]`: what the flow tables make of the frames of a trace.
//!
//! The tables are those after all edits of EDITS, on a switch that has these ports, and the frames of TRACE come in at
//! PORT. For each frame it prints a line: the bits of its key that were consulted, as a hexadecimal number for each field
//! in the order of keys, then `actions=` and the datapath actions (`action_text`), and `visits=` and the numbers of the rules
//! that were visited, with `+` between them, or `-`.
//!
//! With `--rounds=N` it translates the key of every frame in each of N rounds, and prints only how many rules were visited
//! in all. `bench/translate` does.
mod inputs;
mod lines;
mod words;

ghost use Rattle.pipe_model.specs.Runnable.{AreRunnable};
ghost use Rattle.rule_tables.specs.History.{newest, rules_of};

use crate::files::{read_capture, read_rules};
use crate::translations::inputs::keys_of;
use crate::translations::lines::{text_of, visits_in_rounds};
use crate::translations::words::{Command, read_command};
use anyhow::Result;
use ovs_fields::Key;
use rule_tables::VersionedRules;
use std::alloc::Global;
use std::fmt::Write;
use tuple_classifier::Tables;

/// The keys of the frames of the command.
fn read_keys(rt: &HostRuntime, command: &Command<'_>) -> Result<Vec<Key>> {
    let trace = read_capture(rt, command.trace)?;
    let keys = keys_of(rt.alloc(), command.port, &trace);
    drop(trace);
    Ok(keys?)
}

/// The lines of the frames, or how many rules were visited.
fn text_by_tables(
    alloc: Global,
    tables: &Tables<'_>,
    command: &Command<'_>,
    keys: &[Key],
) -> Result<String>
    requires { AreRunnable tables.now.rules }
{
    let ports = command.ports.as_slice();
    let Some(rounds) = command.rounds else {
        return Ok(text_of(alloc, tables, ports, keys)?);
    };
    let visits = visits_in_rounds(alloc, tables, ports, keys, rounds)?;
    let mut text = String::new(alloc);
    writeln!(text, "{visits}")?;
    Ok(text)
}

/// The same by the tables of the last version of rules.
fn text_by_rules(rt: &HostRuntime, rules: &VersionedRules, command: &Command<'_>) -> Result<String>
    requires { AreRunnable (rules_of rules.now (newest rules.now)) }
{
    let keys = read_keys(rt, command)?;
    let tables = Tables::last(rt.alloc(), rules)?;
    let text = text_by_tables(rt.alloc(), &tables, command, &keys);
    drop(tables);
    text
}

/// The lines of the frames, or how many rules were visited.
pub fn answer(rt: &HostRuntime, words: &[String]) -> Result<String> {
    let command = read_command(rt.alloc(), words)?;
    let rules = read_rules(rt, command.edits)?;
    let text = text_by_rules(rt, &rules, &command);
    drop(rules);
    text
}

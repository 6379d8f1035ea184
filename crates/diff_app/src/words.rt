//! The words of the command line.
ghost use Rattle.std.specs.Prelude.{◌≡◌, ◌==◌, IfOk};
ghost use Rattle.std.specs.List.{list_any};
ghost use Rattle.std.specs.Option.{option_map};
ghost use Rattle.command_words.specs.CommandViews.{texts, text_view};
ghost use Rattle.spec_input.specs.Words.{name_in};
ghost use Rattle.spec_tools.specs.TraceWords.{new_port};
ghost use Rattle.spec_tools.specs.DiffWords.{ports_of, command_from, command_in, command_of};
ghost use Rattle.diff_app.specs.Commands.{command_view};

use command_words::read_port_number;
use std::alloc::{AllocError, Global};

/// The most ports of a switch.
const MOST_PORTS: usize = 32;

/// What the words say.
#[derive(Drop)]
pub struct Command<'a> {
    /// The name of the file of edits of the old version.
    pub old: &'a str,
    /// That of the new version.
    pub new: &'a str,
    /// The ports of the switch, in the order of the words.
    pub ports: Vec<u16>,
    /// Whether kinds alone are told.
    pub brief: bool,
}

fn names_port(ports: &[u16], port: u16) -> bool
    ensures { result ≡ list_any (λ p. p == port) ports.now }
{
    ports.iter().any(|p| *p == port)
}

// The port of a word, where none before it has its number.
#[tactic(auto, unfolding(spec_tools::specs::TraceWords::new_port))]
fn read_new_port(before: &[u16], word: &str) -> Option<u16>
    ensures { result ≡ new_port before.now word.now }
{
    let port = read_port_number(word.as_bytes())?;
    if names_port(before, port) {
        None
    } else {
        Some(port)
    }
}

// The ports of words, all different, of which there aren't too many.
fn read_ports(alloc: Global, words: &[String]) -> Result<Option<Vec<u16>>, AllocError>
    ensures { IfOk result (λ found. option_map (λ v. v.items) found ≡ ports_of (texts words.now)) }
{
    if words.len() > MOST_PORTS {
        return Ok(None);
    }
    let mut ports = Vec::new(alloc);
    'words: for word in words {
        match read_new_port(&ports, word.as_str()) {
            None => return Ok(None),
            Some(port) => ports.push(port)?,
        }
    }
    Ok(Some(ports))
}

// A name that isn't empty.
fn name_in(text: &str) -> Option<&str>
    ensures { text_view result ≡ name_in text.now }
{
    if text.is_empty() {
        return None;
    }
    Some(text)
}

#[tactic(auto, unfolding(spec_tools::specs::DiffWords::command_from))]
fn command_from<'a>(
    alloc: Global,
    brief: bool,
    old: &'a str,
    new: &'a str,
    ports: &[String],
) -> Result<Option<Command<'a>>, AllocError>
    ensures { IfOk result (λ found.
        option_map command_view found ≡ command_from brief old.now new.now (texts ports.now)) }
{
    let Some(old) = name_in(old) else {
        return Ok(None);
    };
    let Some(new) = name_in(new) else {
        return Ok(None);
    };
    match read_ports(alloc, ports)? {
        None => Ok(None),
        Some(ports) => Ok(Some(Command {
            old,
            new,
            ports,
            brief,
        })),
    }
}

// Both names and one port or more.
#[tactic(auto, unfolding(spec_tools::specs::DiffWords::command_in))]
fn command_in(
    alloc: Global,
    brief: bool,
    words: &[String],
) -> Result<Option<Command<'_>>, AllocError>
    ensures { IfOk result (λ found. option_map command_view found ≡ command_in brief (texts words.now)) }
{
    let [old, new, ports @ ..] = words else {
        return Ok(None);
    };
    if ports.is_empty() {
        return Ok(None);
    }
    command_from(alloc, brief, old.as_str(), new.as_str(), ports)
}

/// Reads the words after the program's name: `[--brief] OLD NEW PORT..`.
#[tactic(auto, unfolding(spec_tools::specs::DiffWords::command_of))]
pub fn read_command(alloc: Global, words: &[String]) -> Result<Option<Command<'_>>, AllocError>
    ensures { IfOk result (λ found. option_map command_view found ≡ command_of (texts words.now)) }
{
    let [first, rest @ ..] = words else {
        return Ok(None);
    };
    if first.as_str() == "--brief" {
        command_in(alloc, true, rest)
    } else {
        command_in(alloc, false, words)
    }
}

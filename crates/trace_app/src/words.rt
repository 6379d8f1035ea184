//! The words of the command line.
ghost use Rattle.std.specs.Prelude.{◌≡◌, ◌==◌, ◌++◌, ◌∷◌, [], IfOk};
ghost use Rattle.std.specs.List.{list_any};
ghost use Rattle.std.specs.Option.{option_map};
ghost use Rattle.spec_flow_text.specs.Characters.{line_feed};
ghost use Rattle.command_words.specs.CommandViews.{texts, text_view};
ghost use Rattle.spec_input.specs.Words.{name_in};
ghost use Rattle.spec_tools.specs.TraceWords.{line_in, new_port, ports_within, ports_in, command_from, command_of};
ghost use Rattle.trace_app.specs.Commands.{ports_if, command_view};

use command_words::read_port_number;
use std::alloc::{AllocError, Global};
use text_numbers::cut_at;

/// The most ports of a switch.
const MOST_PORTS: u32 = 32;

/// What the words say.
#[derive(Drop)]
pub struct Command<'a> {
    /// The name of the file of edits.
    pub edits: &'a str,
    pub flow: &'a str,
    /// The ports of the switch, in the order of the words.
    pub ports: Vec<u16>,
}

/// Whether a port is one of these.
pub(crate) fn names_port(ports: &[u16], port: u16) -> bool
    ensures { result ≡ list_any (λ p. p == port) ports.now }
{
    ports.iter().any(|p| *p == port)
}

// The port of a word, where none before it has its number.
#[tactic(auto, unfolding(spec_tools::specs::TraceWords::new_port))]
fn read_new_port(before: &[u16], word: &[u8]) -> Option<u16>
    ensures { result ≡ new_port before.now word.now }
{
    let port = read_port_number(word)?;
    if names_port(before, port) {
        None
    } else {
        Some(port)
    }
}

// Adds the port of a word, and answers whether there was one to be added.
fn add_port(ports: &mut Vec<u16>, word: &[u8]) -> Result<bool, AllocError>
    ensures { IfOk result (λ added.
        ports_if added ports.new.items
        ≡ option_map (λ port. ports.old.items ++ port ∷ []) (new_port ports.old.items word.now)) }
{
    match read_new_port(ports, word) {
        None => Ok(false),
        Some(port) => {
            ports.push(port)?;
            Ok(true)
        }
    }
}

// Adds the ports of a text, where so many may follow, and answers whether all are in form.
fn add_ports(ports: &mut Vec<u16>, room: u32, text: &[u8]) -> Result<bool, AllocError>
    ensures { IfOk result (λ added.
        ports_if added ports.new.items ≡ ports_within room ports.old.items text.now) }
{
    if room == 0 {
        return Ok(false);
    }
    match cut_at(text, b',') {
        None => add_port(ports, text),
        Some((word, rest)) => {
            if !add_port(ports, word)? {
                return Ok(false);
            }
            add_ports(ports, room - 1, rest)
        }
    }
}

fn read_ports(alloc: Global, text: &[u8]) -> Result<Option<Vec<u16>>, AllocError>
    ensures { IfOk result (λ found. option_map (λ v. v.items) found ≡ ports_in text.now) }
{
    let mut ports = Vec::new(alloc);
    if add_ports(&mut ports, MOST_PORTS, text)? {
        Ok(Some(ports))
    } else {
        Ok(None)
    }
}

// A name that isn't empty.
fn name_in(text: &str) -> Option<&str>
    ensures { text_view result ≡ name_in text.now }
{
    if text.is_empty() {
        return None;
    }
    Some(text)
}

fn has_line_feed(text: &str) -> bool
    ensures { result ≡ list_any (λ c. c == line_feed) text.now }
{
    text.as_bytes().iter().any(|c| *c == b'\n')
}

// One line, which isn't empty.
fn line_in(text: &str) -> Option<&str>
    ensures { text_view result ≡ line_in text.now }
{
    if text.is_empty() | has_line_feed(text) {
        return None;
    }
    Some(text)
}

#[tactic(auto, unfolding(spec_tools::specs::TraceWords::command_from))]
fn command_from<'a>(
    alloc: Global,
    edits: &'a str,
    flow: &'a str,
    ports: &str,
) -> Result<Option<Command<'a>>, AllocError>
    ensures { IfOk result (λ found.
        option_map command_view found ≡ command_from edits.now flow.now ports.now) }
{
    let Some(edits) = name_in(edits) else {
        return Ok(None);
    };
    let Some(flow) = line_in(flow) else {
        return Ok(None);
    };
    match read_ports(alloc, ports.as_bytes())? {
        None => Ok(None),
        Some(ports) => Ok(Some(Command { edits, flow, ports })),
    }
}

/// Reads the words after the program's name: `EDITS FLOW PORTS`, with commas between the ports.
#[tactic(auto, unfolding(spec_tools::specs::TraceWords::command_of))]
pub fn read_command(alloc: Global, words: &[String]) -> Result<Option<Command<'_>>, AllocError>
    ensures { IfOk result (λ found. option_map command_view found ≡ command_of (texts words.now)) }
{
    let [edits, flow, ports] = words else {
        return Ok(None);
    };
    command_from(alloc, edits.as_str(), flow.as_str(), ports.as_str())
}

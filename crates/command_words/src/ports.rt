//! The ports of the words, each with its trace.
ghost use Rattle.std.specs.Prelude.{◌≡◌, ◌==◌, ◌∷◌, [], length, map, nat_eq, Option, Some, None, IfOk, IfSome};
ghost use Rattle.std.specs.List.{list_any, IsDistinct};
ghost use Rattle.std.specs.Option.{option_map};
ghost use Rattle.spec_flow_text.specs.Characters.{equals_sign};
ghost use Rattle.spec_flow_text.specs.Numbers.{split_once};
ghost use Rattle.spec_input.specs.Words.{port_number, port_word, is_named, new_port, port_words};
ghost use Rattle.command_words.specs.PortViews.{lent, port_view, ports_view, ports_said};

use std::alloc::{AllocError, Global};
use text_numbers::{LAST_PORT, as_port, read_decimal};

/// A port of the words, and the name of its trace, which is empty where it has none.
#[derive(Clone, Copy)]
pub struct PortWord<'a> {
    pub port: u16,
    pub file: &'a str,
}

/// The number of a port: decimal digits without leading zeros, from 1 to 65,279.
#[tactic(auto, unfolding(spec_input::specs::Words::port_number))]
pub fn read_port_number(text: &[u8]) -> Option<u16>
    ensures { result ≡ port_number text.now }
{
    let number = read_decimal(text, u128::from(LAST_PORT))?;
    as_port(number)
}

fn split_at_equals(word: &str) -> Option<(&str, &str)>
    ensures { option_map (λ p. (p.0.now, p.1.now)) result ≡ split_once equals_sign word.now }
{
    word.split_once('=')
}

#[tactic(auto, unfolding(spec_input::specs::Words::port_word))]
fn read_port_word(word: &str) -> Option<PortWord<'_>>
    ensures { option_map port_view result ≡ port_word word.now }
{
    let (port, file) = split_at_equals(word)?;
    let port = read_port_number(port.as_bytes())?;
    Some(PortWord { port, file })
}

fn names_port(ports: &[PortWord<'_>], port: u16) -> bool
    ensures { result ≡ list_any (λ w. (port_view w).port == port) ports.now }
{
    ports.iter().any(|w| w.port == port)
}

#[tactic(auto, using(crate::proofs::Lists::any_in_view), unfolding(spec_input::specs::Words::new_port))]
fn read_new_port<'a>(before: &[PortWord<'_>], word: &'a str) -> Option<PortWord<'a>>
    ensures { option_map port_view result ≡ new_port (ports_view before.now) word.now }
{
    let found = read_port_word(word)?;
    if names_port(before, found.port) {
        None
    } else {
        Some(found)
    }
}

/// The ports of words, where all are in form and differ.
pub fn read_port_words<'a>(
    alloc: Global,
    words: &[&'a str],
) -> Result<Option<Vec<PortWord<'a>>>, AllocError>
    ensures ports { IfOk result
        (λ found. option_map (λ v. ports_view v.items) found ≡ port_words [] (lent words.now)) }
    ensures count { IfOk result (λ found. IfSome found (λ v. length v.items ≡ length words.now)) }
    ensures distinct { IfOk result
        (λ found. IfSome found (λ v. IsDistinct nat_eq (ports_said (ports_view v.items)))) }
{
    let mut ports = Vec::new(alloc);
    'words: for word in words {
        match read_new_port(&ports, *word) {
            None => return Ok(None),
            Some(port) => ports.push(port)?,
        }
    }
    Ok(Some(ports))
}

ghost use Rattle.std.specs.Prelude.{◌≡◌, ◌≤◌, ◌+◌, length, IfOk, IfSome};
ghost use Rattle.std.specs.Option.{option_map};
ghost use Rattle.spec_flow_text.specs.Given.{Gives};
ghost use Rattle.spec_flow_text.specs.Matches.{match_text, uncommented, with_list, read_match};
ghost use Rattle.match_text.specs.Views.{sofar_view, stated_view, match_text_view, flow_view};

use crate::flows::Flow;
use crate::items::{Stated, deletes, read_items};
use crate::sofar::Sofar;
use field_text::{TextFault, text_from, uncommented};
use rule_tables::{EditWord, Match};
use std::alloc::Global;

/// What a flow says before its actions.
#[derive(Clone, Copy)]
pub struct MatchText {
    pub table: Option<u8>,
    /// 32,768 where the flow states none.
    pub priority: u16,
    pub cookie: Option<u64>,
    pub matching: Match,
    /// Where the actions begin, counted from 0: after `actions=`.
    pub rest: Option<usize>,
}

// The priority of a flow that states none (ovs-ofctl(8)).
const DEFAULT_PRIORITY: u16 = 32_768;

fn flow_of(sofar: Sofar, rest: Option<usize>) -> Flow
    ensures text { flow_view result ≡ match_text (sofar_view sofar) rest }
    ensures rest { result.rest ≡ rest }
{
    Flow {
        table: sofar.table,
        priority: sofar.priority.unwrap_or(DEFAULT_PRIORITY),
        cookie: sofar.cookie,
        parts: sofar.parts,
        rest,
    }
}

// An action list has to follow, but for a word that deletes, after which none may.
fn with_list(word: EditWord, line: &[u8], stated: Stated) -> Result<Flow, TextFault>
    requires { length line.now ≤ 4_294_967_294 }
    ensures text { Gives flow_view result
        (with_list word (length (uncommented line.now)) (sofar_view stated.sofar) stated.list) }
    ensures rest { IfOk result (λ f. f.rest ≡ option_map (λ list. list.1) stated.list) }
{
    match stated.list {
        None if deletes(word) => Ok(flow_of(stated.sofar, None)),
        None => Err(TextFault::Syntax {
            col: (uncommented(line).len() + 1) as u32,
        }),
        Some((col, _)) if deletes(word) => Err(TextFault::Syntax { col }),
        Some((_, rest)) => Ok(flow_of(stated.sofar, Some(rest))),
    }
}

/// The flow of a line from a place on, before its actions. An action list has to follow, but for a word that deletes.
#[tactic(auto, unfolding(spec_flow_text::specs::Matches::read_match))]
pub fn read_flow(alloc: Global, line: &[u8], at: usize, word: EditWord) -> Result<Flow, TextFault>
    requires within { at ≤ length line.now }
    requires short { length line.now ≤ 4_294_967_294 }
    ensures text { Gives flow_view result (read_match word at line.now) }
    ensures rest { IfOk result (λ f. IfSome f.rest (λ rest. rest ≤ length line.now)) }
{
    let stretch = text_from(line, at)?;
    let nothing = Sofar {
        parts: Vec::new(alloc),
        table: None,
        priority: None,
        cookie: None,
    };
    let stated = read_items(word, stretch, nothing)?;
    with_list(word, line, stated)
}

/// What a line says from a place on, before its actions. An action list has to follow, but for a word that deletes.
pub fn read_match(
    alloc: Global,
    line: &[u8],
    at: usize,
    word: EditWord,
) -> Result<MatchText, TextFault>
    requires within { at ≤ length line.now }
    requires short { length line.now ≤ 4_294_967_294 }
    ensures text { Gives match_text_view result (read_match word at line.now) }
    ensures rest { IfOk result (λ m. IfSome m.rest (λ rest. rest ≤ length line.now)) }
{
    let flow = read_flow(alloc, line, at, word)?;
    Ok(flow.text())
}

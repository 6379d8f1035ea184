ghost use Rattle.std.specs.Prelude.{◌≡◌, ◌≤◌, ◌+◌, length, IfOk, IfSome, IsTrue};
ghost use Rattle.spec_actions.specs.Sound.{AreSound};
ghost use Rattle.spec_flow_text.specs.Given.{Gives};
ghost use Rattle.spec_flow_text.specs.Names as names;
ghost use Rattle.spec_flow_text.specs.Lines.{edit_words, edit, actions_from, edit_from, edit_in, first_word as word_at_start};
ghost use Rattle.spec_flow_text.specs.Matches.{uncommented};
ghost use Rattle.field_text.specs.WordViews.{word_view};
ghost use Rattle.match_text.specs.Views.{flow_view};
ghost use Rattle.edit_script.specs.Fronts.{IsFront};
ghost use Rattle.spec_tables.specs.Edits.{has_sound_actions};

use crate::line_words::front_of;
use action_text::read_actions;
use field_text::{TextFault, Word, meaning_of};
use match_text::{Flow, read_flow};
use rule_tables::{Actions, Edit, EditWord};
use std::alloc::Global;

const EDIT_WORDS: [(&str, EditWord); 5] = [
    ("add", EditWord::Add),
    ("modify", EditWord::Modify),
    ("modify_strict", EditWord::ModifyStrict),
    ("delete", EditWord::Delete),
    ("delete_strict", EditWord::DeleteStrict),
];

// The edit that a text names.
fn edit_word(text: &[u8]) -> Option<EditWord>
    ensures { result ≡ names.meaning_of edit_words text.now }
{
    meaning_of(&EDIT_WORDS, text)
}

fn edit(word: EditWord, flow: &Flow, actions: Actions) -> Edit
    ensures { result ≡ edit word (flow_view flow.now) actions }
{
    Edit {
        word,
        table: flow.table,
        priority: flow.priority,
        cookie: flow.cookie,
        matching: flow.matching(),
        actions,
    }
}

// The actions of a flow, where it has a list of them.
fn actions_from(alloc: Global, line: &[u8], rest: Option<usize>) -> Result<Actions, TextFault>
    requires within { IfSome rest (λ at. at ≤ length line.now) }
    requires short { length line.now ≤ 4_294_967_294 }
    ensures value { Gives (λ actions. actions) result (actions_from rest line.now) }
    ensures sound { IfOk result (λ actions. AreSound actions) }
{
    match rest {
        None => Ok(Actions::new(Vec::new(alloc))),
        Some(at) => read_actions(alloc, line, at),
    }
}

// The edit of a word, whose flow stands in a line from a place on.
#[tactic(auto, unfolding(spec_flow_text::specs::Lines::edit_from))]
fn edit_from(alloc: Global, line: &[u8], at: usize, word: EditWord) -> Result<Edit, TextFault>
    requires within { at ≤ length line.now }
    requires short { length line.now ≤ 4_294_967_294 }
    ensures value { Gives (λ e. e) result (edit_from word at line.now) }
    ensures sound { IfOk result (λ e. IsTrue (has_sound_actions e)) }
{
    let flow = read_flow(alloc, line, at, word)?;
    let actions = actions_from(alloc, line, flow.rest)?;
    Ok(edit(word, &flow, actions))
}

/// The edit of a line whose front was read.
#[tactic(auto, unfolding(spec_flow_text::specs::Lines::edit_in))]
pub fn read_edit_behind(alloc: Global, line: &[u8], front: Word<'_>) -> Result<Edit, TextFault>
    requires short { length line.now ≤ 4_294_967_294 }
    requires front { IsFront (word_view front) (word_at_start (uncommented line.now)) }
    requires within { front.at + length front.text.now ≤ length line.now }
    ensures value { Gives (λ e. e) result (edit_in line.now) }
    ensures sound { IfOk result (λ e. IsTrue (has_sound_actions e)) }
{
    match edit_word(front.text) {
        None => edit_from(alloc, line, 0, EditWord::Add),
        Some(word) => edit_from(alloc, line, front.at + front.text.len(), word),
    }
}

/// The edit of a line, which adds where it begins with no word of an edit (ovs-ofctl(8)).
pub fn read_edit(alloc: Global, line: &[u8]) -> Result<Edit, TextFault>
    requires { length line.now ≤ 4_294_967_294 }
    ensures value { Gives (λ e. e) result (edit_in line.now) }
    ensures sound { IfOk result (λ e. IsTrue (has_sound_actions e)) }
{
    read_edit_behind(alloc, line, front_of(line))
}

ghost use Rattle.std.specs.Prelude.{◌≡◌, ◌+◌, ◌<◌, ◌≤◌, [], ◌++◌, length, IfOk, IfErr, OnOk, IfSome, IsTrue};
ghost use Rattle.spec_actions.specs.Sound.{is_sound, AreSound};
ghost use Rattle.spec_flow_text.specs.Actions.{most_actions, read_items, read_actions};
ghost use Rattle.spec_flow_text.specs.Given.{IsFault, Gives};
ghost use Rattle.field_text.specs.WordViews.{word_view};
ghost use Rattle.action_text.specs.ActionsRead.{listed, list_view, vector_view};
ghost use Rattle.action_text.specs.ItemStarts.{items_in, BeginsItem};

use crate::items::{after_separators, cut_item};
use crate::list::read_item;
use field_text::{TextFault, Word, text_from};
use rule_tables::Actions;
use spec_actions::OfAction;
use std::alloc::{AllocError, Global};

// The most actions of a flow.
const MOST_ACTIONS: usize = 64;

#[tactic(auto, using(crate::proofs::ListSteps::sound_with, crate::proofs::ListSteps::with_none))]
fn add(actions: &mut Vec<OfAction>, action: Option<OfAction>) -> Result<(), AllocError>
    requires sound { AreSound actions.old.items }
    requires action_sound { IfSome action (λ a. IsTrue (is_sound a)) }
    ensures added { OnOk result (actions.new.items ≡ actions.old.items ++ listed action) }
    ensures few { OnOk result (length actions.new.items ≤ length actions.old.items + 1) }
    ensures sound { OnOk result (AreSound actions.new.items) }
{
    match action {
        None => Ok(()),
        Some(action) => {
            actions.push(action)?;
            Ok(())
        }
    }
}

// Adds the action of the first item of a stretch; what follows the item is left.
fn read_next<'a>(
    alloc: Global,
    actions: &mut Vec<OfAction>,
    rest: Word<'a>,
) -> Result<Word<'a>, TextFault>
    requires some { 0 < length rest.text.now }
    requires begins { BeginsItem rest.text.now }
    requires few { length actions.old.items ≤ most_actions }
    requires sound { AreSound actions.old.items }
    ensures read { IfOk result (λ more.
        read_items actions.old.items (items_in (word_view rest.entry))
        ≡ read_items actions.new.items (items_in (word_view more))) }
    ensures fault { IfErr result (λ e.
        IsFault e (read_items actions.old.items (items_in (word_view rest.entry)))) }
    ensures begins { IfOk result (λ more. BeginsItem more.text.now) }
    ensures shorter { IfOk result (λ more. length more.text.now < length rest.entry.text.now) }
    ensures few { IfOk result (λ _. length actions.new.items ≤ most_actions) }
    ensures sound { IfOk result (λ _. AreSound actions.new.items) }
{
    let cut = cut_item(alloc, rest)?;
    if actions.len() == MOST_ACTIONS {
        return Err(TextFault::TooManyActions);
    }
    let last = cut.rest.text.is_empty();
    let only = actions.is_empty() & last;
    let action = read_item(cut.item, cut.closed, only, last)?;
    add(actions, action)?;
    Ok(cut.rest)
}

// The list takes no more memory than its actions need, since each rule keeps one: most have one action.
fn read_list(alloc: Global, text: Word<'_>) -> Result<Vec<OfAction>, TextFault>
    ensures value { Gives vector_view result (read_items [] (items_in (word_view text.entry))) }
    ensures sound { IfOk result (λ list. AreSound list.items) }
    ensures few { IfOk result (λ list. length list.items ≤ most_actions) }
{
    let mut actions = Vec::with_capacity(alloc, 1)?;
    let mut rest = after_separators(text);
    'items: while !rest.text.is_empty() {
        rest = read_next(alloc, &mut actions, rest)?;
    }
    actions.shrink_to_fit();
    Ok(actions)
}

/// The actions of a line from a place on, up to its comment (ovs-actions(7)).
///
/// A fault is the first of the line; a column of it is counted from the start of the line. Memory is taken for the list,
/// and for the brackets that are open.
#[tactic(auto, unfolding(spec_flow_text::specs::Actions::read_actions))]
pub fn read_actions(alloc: Global, line: &[u8], at: usize) -> Result<Actions, TextFault>
    requires within { at ≤ length line.now }
    requires short { length line.now ≤ 4_294_967_294 }
    ensures value { Gives list_view result (read_actions at line.now) }
    ensures sound { IfOk result (λ list. AreSound list) }
    ensures few { IfOk result (λ list. length list ≤ most_actions) }
{
    let text = text_from(line, at)?;
    let list = read_list(alloc, text)?;
    Ok(Actions::new(list))
}

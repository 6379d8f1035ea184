ghost use Rattle.std.specs.Prelude.{◌≡◌, ◌≤◌, ◌+◌, ◌==◌, true, length, codes, IfOk, IfSome};
ghost use Rattle.std.specs.Option.{option_map, option_or};
ghost use Rattle.std.specs.List.{list_any};
ghost use Rattle.spec_flow_text.specs.Characters.{slash};
ghost use Rattle.spec_flow_text.specs.Numbers.{strip_prefix};
ghost use Rattle.spec_flow_text.specs.Given.{Gives};
ghost use Rattle.spec_actions.specs.Sound.{last_table};
ghost use Rattle.spec_flow_text.specs.Items.{◌>>=◌ as ◌then◌, deletes, is_plain_cookie, last_priority, greatest_cookie, number_once, with_valued, with_bare, with_item, list_start, is_separator, words, read_items};
ghost use Rattle.field_text.specs.WordViews.{word_view};
ghost use Rattle.match_text.specs.Views.{sofar_view, stated_view};

use crate::sofar::Sofar;
use crate::stating::{number_once, with_shorthand, with_value};
use field_text::{
    ItemName, Separators, TextFault, Word, field_stated, item_named, next_word, vlan_stated,
};
use rule_tables::EditWord;
use text_numbers::{after_start, cut_at};

// The greatest table.
const LAST_TABLE: u64 = 254;

// Whether a word of an edit removes rules.
pub fn deletes(word: EditWord) -> bool
    ensures { result ≡ deletes word }
{
    match word {
        EditWord::Delete | EditWord::DeleteStrict => true,
        EditWord::Add | EditWord::Modify | EditWord::ModifyStrict => false,
    }
}

fn has_slash(value: &[u8]) -> bool
    ensures { result ≡ list_any (λ byte. byte == slash) value.now }
{
    value.iter().any(|byte| *byte == b'/')
}

// A cookie stands whole, and picks no rules to delete.
fn is_plain_cookie(word: EditWord, value: &[u8]) -> bool
    ensures { result ≡ is_plain_cookie word value.now }
{
    !deletes(word) & !has_slash(value)
}

fn with_table(col: u32, value_col: u32, value: &[u8], sofar: &mut Sofar) -> Result<(), TextFault>
    ensures { Gives (λ _. sofar_view sofar.new) result
        (number_once col value_col (sofar_view sofar.old).table last_table value.now
        then (λ n. Ok (record (sofar_view sofar.old) { table = Some n }))) }
{
    let table = number_once(
        col,
        value_col,
        sofar.table.map(u64::from),
        LAST_TABLE,
        value,
    )?;
    sofar.table = Some(table as u8);
    Ok(())
}

fn with_priority(col: u32, value_col: u32, value: &[u8], sofar: &mut Sofar) -> Result<(), TextFault>
    ensures { Gives (λ _. sofar_view sofar.new) result
        (number_once col value_col (sofar_view sofar.old).priority last_priority value.now
        then (λ n. Ok (record (sofar_view sofar.old) { priority = Some n }))) }
{
    let most = u64::from(u16::MAX);
    let priority = number_once(col, value_col, sofar.priority.map(u64::from), most, value)?;
    sofar.priority = Some(priority as u16);
    Ok(())
}

fn with_cookie(col: u32, value_col: u32, value: &[u8], sofar: &mut Sofar) -> Result<(), TextFault>
    ensures { Gives (λ _. sofar_view sofar.new) result
        (number_once col value_col (sofar_view sofar.old).cookie greatest_cookie value.now
        then (λ n. Ok (record (sofar_view sofar.old) { cookie = Some n }))) }
{
    let cookie = number_once(col, value_col, sofar.cookie, u64::MAX, value)?;
    sofar.cookie = Some(cookie);
    Ok(())
}

// What is stated with an item of this name and value.
#[tactic(auto, unfolding(spec_flow_text::specs::Items::with_valued))]
fn with_valued(
    word: EditWord,
    col: u32,
    value_col: u32,
    name: Option<ItemName>,
    value: &[u8],
    sofar: &mut Sofar,
) -> Result<(), TextFault>
    ensures { Gives (λ _. sofar_view sofar.new) result
        (with_valued word col value_col name value.now (sofar_view sofar.old)) }
{
    let name = match name {
        None => return Err(TextFault::UnknownName { col }),
        Some(name) => name,
    };
    match name {
        ItemName::Unsupported => Err(TextFault::Unsupported { col }),
        ItemName::Shorthand(_) | ItemName::Actions => Err(TextFault::Syntax { col }),
        ItemName::Table => with_table(col, value_col, value, sofar),
        ItemName::Priority => with_priority(col, value_col, value, sofar),
        ItemName::Cookie => {
            if is_plain_cookie(word, value) {
                with_cookie(col, value_col, value, sofar)
            } else {
                Err(TextFault::Unsupported { col })
            }
        }
        ItemName::Field(_) | ItemName::DlVlan | ItemName::Statistic if value.is_empty() => {
            Err(TextFault::Syntax { col })
        }
        ItemName::Field(field) => with_value(col, value_col, field_stated(field, value), sofar),
        ItemName::DlVlan => with_value(col, value_col, vlan_stated(value), sofar),
        ItemName::Statistic => Ok(()),
    }
}

// What is stated with an item that is a name alone.
#[tactic(auto, unfolding(spec_flow_text::specs::Items::with_bare))]
fn with_bare(
    word: EditWord,
    col: u32,
    name: Option<ItemName>,
    sofar: &mut Sofar,
) -> Result<(), TextFault>
    ensures { Gives (λ _. sofar_view sofar.new) result (with_bare word col name (sofar_view sofar.old)) }
{
    if let Some(ItemName::Shorthand(shorthand)) = name {
        return with_shorthand(col, shorthand, sofar);
    }
    with_valued(word, col, col, name, &[], sofar)
}

// One item.
#[tactic(auto, unfolding(spec_flow_text::specs::Items::with_item))]
fn with_item(word: EditWord, item: Word<'_>, sofar: &mut Sofar) -> Result<(), TextFault>
    ensures { Gives (λ _. sofar_view sofar.new) result (with_item word (word_view item.entry) (sofar_view sofar.old)) }
{
    let col = item.column();
    match cut_at(item.text, b'=') {
        None => with_bare(word, col, item_named(item.text), sofar),
        Some((name, value)) => {
            let value_col = col + name.len() as u32 + 1;
            with_valued(word, col, value_col, item_named(name), value, sofar)
        }
    }
}

// What stands behind the start of a list of actions.
fn behind_list_name(text: &[u8]) -> Option<&[u8]>
    ensures rest { option_map (λ rest. rest.now) result
        ≡ option_or (strip_prefix (codes "actions=") text.now)
        (strip_prefix (codes "action=") text.now) }
    ensures shorter { IfSome result (λ rest. length rest.now ≤ length text.now) }
{
    if text.first() != Some(&b'a') {
        return None;
    }
    if let Some(rest) = after_start(b"actions=", text) {
        return Some(rest);
    }
    after_start(b"action=", text)
}

// Where the list of actions begins, counted from 0, at a word that begins it.
fn list_start(item: Word<'_>) -> Option<usize>
    ensures place { result ≡ list_start (word_view item.entry) }
    ensures within { IfSome result (λ place. place ≤ item.entry.at + length item.entry.text.now) }
{
    let rest = behind_list_name(item.text)?;
    Some(item.at + item.text.len() - rest.len())
}

/// What the items before the action list state, and the column of that list's name and where it begins, if there is one.
#[derive(Drop)]
pub struct Stated {
    pub sofar: Sofar,
    pub list: Option<(u32, usize)>,
}

/// The items of a stretch of a line one after the other, up to the action list.
pub fn read_items(word: EditWord, stretch: Word<'_>, start: Sofar) -> Result<Stated, TextFault>
    ensures items { Gives stated_view result
        (read_items word (words is_separator true stretch.entry.at stretch.entry.text.now)
        (sofar_view start)) }
    ensures within { IfOk result (λ stated. IfSome stated.list
        (λ list. list.1 ≤ stretch.entry.at + length stretch.entry.text.now)) }
{
    let mut sofar = start;
    let mut left = stretch;
    'items: while let Some((item, behind)) = next_word::<Separators>(left) {
        if let Some(place) = list_start(item) {
            return Ok(Stated {
                sofar,
                list: Some((item.column(), place)),
            });
        }
        with_item(word, item, &mut sofar)?;
        left = behind;
    }
    Ok(Stated { sofar, list: None })
}

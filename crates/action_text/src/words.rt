ghost use Rattle.std.specs.Prelude.{◌≡◌, ◌+◌, ◌≤◌, IfSome, ◌==◌, ◌∷◌, [], length, not, nat_eq};
ghost use Rattle.std.specs.List.{prefix_len, starts_with};
ghost use Rattle.spec_flow_text.specs.Actions.{ends_name, name_in, after_name, filled, argument_of, argument, alone, arrow, arrow_place, ends_of_arrow, arrow_argument};
ghost use Rattle.field_text.specs.WordViews.{word_view};
ghost use Rattle.action_text.specs.WordsRead.{word_found, word_read, ends_found, ends_read};

use field_text::{TextFault, Word};
use spec_actions::OfAction;

// How many bytes the name of an item has: it ends at a colon or a bracket.
fn name_length(text: &[u8]) -> usize
    ensures value { result ≡ prefix_len (λ c. not (ends_name c)) text.now }
    ensures within { result ≤ length text.now }
{
    text.iter()
        .take_while(|c| !(**c == b':' || **c == b'('))
        .count()
}

/// The name of an item.
pub fn name_in(item: Word<'_>) -> &[u8]
    ensures { result.now ≡ name_in (word_view item.entry) }
{
    let (name, _) = item.text.split_at(name_length(item.text));
    name
}

/// What stands after the name of an item.
#[tactic(auto, using(crate::proofs::Prefixes::taken_length))]
pub fn after_name(item: Word<'_>) -> Word<'_>
    ensures { word_view result ≡ after_name (word_view item.entry) }
{
    item.skipping(name_length(item.text))
}

fn filled(word: Word<'_>) -> Option<Word<'_>>
    ensures { word_found result ≡ filled (word_view word.entry) }
{
    if word.text.is_empty() {
        None
    } else {
        Some(word)
    }
}

fn starts_with_colon(text: &[u8]) -> bool
    ensures { result ≡ starts_with nat_eq text.now (58 ∷ []) }
{
    text.starts_with(b":")
}

/// What stands after the name of an item and a colon, where there is some.
#[tactic(auto, unfolding(spec_flow_text::specs::Actions::argument_of))]
pub fn argument_of(item: Word<'_>) -> Option<Word<'_>>
    ensures { word_found result ≡ argument_of (word_view item.entry) }
{
    let rest = after_name(item);
    if !starts_with_colon(rest.text) {
        return None;
    }
    filled(rest.skipping(1))
}

/// The value of an item, which has to be there.
pub fn argument(item: Word<'_>) -> Result<Word<'_>, TextFault>
    ensures { word_read result ≡ argument (word_view item.entry) }
{
    match argument_of(item) {
        Some(value) => Ok(value),
        None => Err(TextFault::Syntax { col: item.column() }),
    }
}

/// Whether nothing stands after the name of an item.
pub fn is_alone(item: Word<'_>) -> bool
    ensures { result ≡ (length (after_name (word_view item.entry)).text == 0) }
{
    after_name(item).text.is_empty()
}

/// An action that is a name and no more.
pub fn alone(item: Word<'_>, action: OfAction) -> Result<OfAction, TextFault>
    ensures { result ≡ alone (word_view item.entry) action }
{
    if is_alone(item) {
        Ok(action)
    } else {
        Err(TextFault::Syntax { col: item.column() })
    }
}

fn starts_with_arrow(text: &[u8]) -> bool
    ensures { result ≡ starts_with nat_eq text.now arrow }
{
    text.starts_with(b"->")
}

// The place of the first arrow in a text.
fn arrow_place(text: &[u8]) -> Option<usize>
    ensures value { result ≡ arrow_place text.now }
    ensures within { IfSome result (λ at. at + 2 ≤ length text.now) }
{
    let mut at = 0;
    'places: while at < text.len() {
        let (_, rest) = text.split_at(at);
        if starts_with_arrow(rest) {
            return Some(at);
        }
        at += 1;
    }
    None
}

// The parts of a word round its first arrow, both with text in them.
#[tactic(auto, unfolding(spec_flow_text::specs::Actions::ends_of_arrow))]
fn ends_of_arrow(word: Word<'_>) -> Option<(Word<'_>, Word<'_>)>
    ensures { ends_found result ≡ ends_of_arrow (word_view word.entry) }
{
    let place = arrow_place(word.text)?;
    let source = filled(word.first(place))?;
    let target = filled(word.skipping(place + 2))?;
    Some((source, target))
}

/// The parts of the value of an item round the arrow in it.
#[tactic(auto, unfolding(spec_flow_text::specs::Actions::arrow_argument))]
pub fn arrow_argument(item: Word<'_>) -> Result<(Word<'_>, Word<'_>), TextFault>
    ensures { ends_read result ≡ arrow_argument (word_view item.entry) }
{
    let value = argument(item)?;
    match ends_of_arrow(value) {
        Some(ends) => Ok(ends),
        None => Err(TextFault::Syntax { col: item.column() }),
    }
}

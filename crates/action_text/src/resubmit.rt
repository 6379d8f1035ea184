ghost use Rattle.std.specs.Prelude.{◌≡◌, IfOk, IsTrue};
ghost use Rattle.spec_actions.specs.Sound.{is_sound};
ghost use Rattle.spec_flow_text.specs.Actions.{argument_of, with_port, inside_of, inside_brackets, resubmit};
ghost use Rattle.field_text.specs.WordViews.{word_view};
ghost use Rattle.action_text.specs.WordsRead.{word_found};
ghost use Rattle.action_text.specs.Arguments.{said};

use crate::words::{after_name, argument_of};
use field_text::{TextFault, Word};
use spec_actions::OfAction;
use text_numbers::{after_start, cut_at, read_number};

/// The greatest table.
pub const LAST_TABLE: u128 = 254;

// `(,TABLE)`: no port, and no third argument.
#[tactic(auto, using(crate::proofs::ArgumentLists::one_argument, crate::proofs::ArgumentLists::no_argument, crate::proofs::ArgumentLists::with_port, crate::proofs::ArgumentLists::without_table, crate::proofs::ArgumentLists::three_arguments, crate::proofs::ArgumentLists::table_argument))]
fn table_of_arguments(item: Word<'_>, inside: Word<'_>) -> Result<OfAction, TextFault>
    ensures value { result
        ≡ said (word_view item.entry) (word_view inside.entry) inside.entry.text.now }
    ensures sound { IfOk result (λ action. IsTrue (is_sound action)) }
{
    let unsupported = Err(TextFault::Unsupported { col: item.column() });
    let syntax = Err(TextFault::Syntax { col: item.column() });
    if inside.text.is_empty() {
        return syntax;
    }
    let Some((port, rest)) = cut_at(inside.text, b',') else {
        return unsupported;
    };
    if !port.is_empty() {
        return unsupported;
    }
    if let Some((_, _)) = cut_at(rest, b',') {
        return unsupported;
    }
    if rest.is_empty() {
        return syntax;
    }
    match read_number(rest, LAST_TABLE) {
        Some(table) => Ok(OfAction::Resubmit(table as u8)),
        None => Err(TextFault::BadValue {
            col: inside.skipping(1).column(),
        }),
    }
}

// What stands between the brackets of an item, which the closing one ends.
#[tactic(auto, unfolding(spec_flow_text::specs::Actions::inside_brackets))]
fn inside_brackets(word: Word<'_>) -> Option<Word<'_>>
    ensures { word_found result ≡ inside_brackets (word_view word.entry) }
{
    let rest = after_start(b"(", word.text)?;
    let (inside, after) = cut_at(rest, b')')?;
    if after.is_empty() {
        Some(Word {
            at: word.at + 1,
            text: inside,
        })
    } else {
        None
    }
}

fn with_port(item: Word<'_>) -> TextFault
    ensures { result ≡ with_port (word_view item.entry) (argument_of (word_view item.entry)) }
{
    match argument_of(item) {
        None => TextFault::Syntax { col: item.column() },
        Some(_) => TextFault::Unsupported { col: item.column() },
    }
}

/// A look-up in a further table: `resubmit(,TABLE)`. A port before the comma is left out.
#[tactic(auto, unfolding(spec_flow_text::specs::Actions::resubmit))]
pub fn resubmit(item: Word<'_>) -> Result<OfAction, TextFault>
    ensures value { result ≡ resubmit (word_view item.entry) }
    ensures sound { IfOk result (λ action. IsTrue (is_sound action)) }
{
    match inside_brackets(after_name(item)) {
        Some(inside) => table_of_arguments(item, inside),
        None => Err(with_port(item)),
    }
}

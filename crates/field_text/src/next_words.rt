ghost use Rattle.std.specs.Prelude.{◌≡◌, ℕ, ◌<◌, ◌≤◌, ◌+◌, ◌∷◌, [], Bool, true, not, length, IfSome, IfNone};
ghost use Rattle.std.specs.List.{prefix_len};
ghost use Rattle.spec_flow_text.specs.Items as items;
ghost use Rattle.spec_flow_text.specs.Lines as lines;
ghost use Rattle.field_text.specs.WordViews.{word_view};

use crate::line::Word;
use crate::lines::{is_separator, is_white};

/// What stands between the words of a line.
pub trait Gap {
    /// The bytes that stand there.
    ghost has: { ℕ → Bool };

    /// Whether a byte is one of them.
    fn has(byte: u8) -> bool
        ensures { result ≡ has byte };
}

/// Commas and white space.
pub struct Separators;

impl Gap for Separators {
    ghost has = { items.is_separator };

    fn has(byte: u8) -> bool {
        is_separator(byte)
    }
}

/// White space.
pub struct WhiteSpace;

impl Gap for WhiteSpace {
    ghost has = { items.is_white };

    fn has(byte: u8) -> bool {
        is_white(byte)
    }
}

fn gap_length<G: Gap>(text: &[u8]) -> usize
    ensures value { result ≡ prefix_len G.has text.now }
    ensures within { result ≤ length text.now }
{
    text.iter().take_while(|byte| G::has(**byte)).count()
}

fn word_length<G: Gap>(text: &[u8]) -> usize
    ensures value { result ≡ prefix_len (λ byte. not (G.has byte)) text.now }
    ensures within { result ≤ length text.now }
{
    text.iter().take_while(|byte| !G::has(**byte)).count()
}

/// The first word of a text, with its place there; an empty one where there is none.
pub fn first_word(text: &[u8]) -> Word<'_>
    requires { length text.now ≤ 4_294_967_294 }
    ensures word { word_view result ≡ lines.first_word text.now }
    ensures within { result.at + length result.text.now ≤ length text.now }
{
    let begun = Word { at: 0, text }.skipping(gap_length::<WhiteSpace>(text));
    begun.first(word_length::<WhiteSpace>(begun.text))
}

/// The first word of a stretch of a line, and the stretch behind it.
pub fn next_word<G: Gap>(stretch: Word<'_>) -> Option<(Word<'_>, Word<'_>)>
    ensures some { IfSome result (λ p.
        items.words G.has true stretch.entry.at stretch.entry.text.now
        ≡ word_view p.0 ∷ items.words G.has true p.1.at p.1.text.now) }
    ensures shorter { IfSome result (λ p. length p.1.text.now < length stretch.entry.text.now) }
    ensures begins { IfSome result (λ p. p.0.at + length p.0.text.now ≡ p.1.at) }
    ensures ends { IfSome result (λ p.
        p.1.at + length p.1.text.now ≡ stretch.entry.at + length stretch.entry.text.now) }
    ensures none { IfNone result
        (items.words G.has true stretch.entry.at stretch.entry.text.now ≡ []) }
{
    let begun = stretch.skipping(gap_length::<G>(stretch.text));
    if begun.text.is_empty() {
        return None;
    }
    let length = word_length::<G>(begun.text);
    Some((begun.first(length), begun.skipping(length)))
}

ghost use Rattle.std.specs.Prelude.{◌≡◌, ◌∷◌, not, IfOk, IfSome, IsTrue};
ghost use Rattle.spec_actions.specs.Named.{is_printed_alone};
ghost use Rattle.spec_actions.specs.Sound.{is_sound_slice};
ghost use Rattle.spec_flow_text.specs.Actions.{bit_number, bits_between, bits_in, bracketed, whole_slice, sound_slice, slice_after, slice_of};
ghost use Rattle.field_text.specs.WordViews.{word_view};
ghost use Rattle.action_text.specs.Spelled.{spelled_view, spelled_found};

use crate::fields::slice_name_length;
use field_text::{TextFault, Word};
use named_fields::named;
use spec_actions::{NamedField, Slice};
use text_numbers::{after_start, cut_at, read_number};

/// A slice as it is spelled: its bits may be in disorder, and beyond its field.
#[derive(Clone, Copy)]
pub struct SpelledSlice {
    pub name: NamedField,
    pub low: u128,
    pub high: u128,
}

fn bit_number(text: &[u8]) -> Option<u128>
    ensures { result ≡ bit_number text.now }
{
    read_number(text, u128::MAX)
}

// The bits of `a..b`, from what stands before the first dot and after it.
#[tactic(auto, unfolding(spec_flow_text::specs::Actions::bits_between))]
fn bits_between(name: NamedField, low: &[u8], rest: &[u8]) -> Option<SpelledSlice>
    ensures value { spelled_found result ≡ bits_between name (low.now, rest.now) }
    ensures name { IfSome result (λ s. s.name ≡ name) }
{
    let low = bit_number(low)?;
    let upper = after_start(b".", rest)?;
    let high = bit_number(upper)?;
    Some(SpelledSlice { name, low, high })
}

// All bits of a named field.
#[tactic(auto, using(crate::proofs::NamedBits::some_bits, crate::proofs::NamedBits::whole_is_sound))]
fn whole_slice(name: NamedField) -> Slice
    requires { IsTrue (not (is_printed_alone name)) }
    ensures value { result ≡ whole_slice name }
    ensures sound { IsTrue (is_sound_slice result) }
    ensures name { result.name ≡ name }
{
    Slice {
        name,
        low: 0,
        high: named(name).bits - 1,
    }
}

// What stands between the brackets of a slice.
#[tactic(auto, unfolding(spec_flow_text::specs::Actions::bits_in))]
fn bits_in(name: NamedField, text: &[u8]) -> Option<SpelledSlice>
    requires { IsTrue (not (is_printed_alone name)) }
    ensures value { spelled_found result ≡ bits_in name text.now }
    ensures name { IfSome result (λ s. s.name ≡ name) }
{
    if text.is_empty() {
        let whole = whole_slice(name);
        return Some(SpelledSlice {
            name,
            low: u128::from(whole.low),
            high: u128::from(whole.high),
        });
    }
    match cut_at(text, b'.') {
        Some((low, rest)) => bits_between(name, low, rest),
        None => {
            let bit = bit_number(text)?;
            Some(SpelledSlice {
                name,
                low: bit,
                high: bit,
            })
        }
    }
}

// The bits in brackets, which close at the end.
fn bracketed(name: NamedField, inside: &[u8], rest: &[u8]) -> Option<SpelledSlice>
    requires { IsTrue (not (is_printed_alone name)) }
    ensures value { spelled_found result ≡ bracketed name (inside.now, rest.now) }
    ensures name { IfSome result (λ s. s.name ≡ name) }
{
    if rest.is_empty() {
        bits_in(name, inside)
    } else {
        None
    }
}

fn sound_slice(spelled: SpelledSlice) -> Option<Slice>
    requires { IsTrue (not (is_printed_alone spelled.name)) }
    ensures value { result ≡ sound_slice (spelled_view spelled) }
    ensures sound { IfSome result (λ slice. IsTrue (is_sound_slice slice)) }
    ensures name { IfSome result (λ slice. slice.name ≡ spelled.name) }
{
    if spelled.low <= spelled.high && spelled.high < u128::from(named(spelled.name).bits) {
        Some(Slice {
            name: spelled.name,
            low: spelled.low as u32,
            high: spelled.high as u32,
        })
    } else {
        None
    }
}

// What stands after the name of a slice: nothing, or brackets.
#[tactic(auto, unfolding(spec_flow_text::specs::Actions::slice_after))]
fn slice_after(name: NamedField, text: &[u8]) -> Option<Slice>
    requires { IsTrue (not (is_printed_alone name)) }
    ensures value { result ≡ slice_after name text.now }
    ensures sound { IfSome result (λ slice. IsTrue (is_sound_slice slice)) }
    ensures name { IfSome result (λ slice. slice.name ≡ name) }
{
    match text {
        [] => Some(whole_slice(name)),
        [_, rest @ ..] => {
            let (inside, after) = cut_at(rest, b']')?;
            let spelled = bracketed(name, inside, after)?;
            sound_slice(spelled)
        }
    }
}

/// The slice of a word that begins with the name of a field: `NAME`, `NAME[]`, `NAME[BIT]` or `NAME[LOW..HIGH]`.
#[tactic(auto, unfolding(spec_flow_text::specs::Actions::slice_of), using(crate::proofs::Prefixes::taken_length))]
pub fn slice_of(name: NamedField, word: Word<'_>) -> Result<Slice, TextFault>
    requires { IsTrue (not (is_printed_alone name)) }
    ensures value { result ≡ slice_of name (word_view word.entry) }
    ensures sound { IfOk result (λ slice. IsTrue (is_sound_slice slice)) }
    ensures name { IfOk result (λ slice. slice.name ≡ name) }
{
    let (_, rest) = word.text.split_at(slice_name_length(word.text));
    match slice_after(name, rest) {
        Some(slice) => Ok(slice),
        None => Err(TextFault::BadValue { col: word.column() }),
    }
}

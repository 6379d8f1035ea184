ghost use Rattle.std.specs.Prelude.{◌≡◌, ◌≤◌, ◌==◌, length, not, IfOk, IsTrue};
ghost use Rattle.std.specs.List.{prefix_len};
ghost use Rattle.spec_actions.specs.Named.{is_printed_alone};
ghost use Rattle.spec_actions.specs.Sound.{is_written};
ghost use Rattle.spec_flow_text.specs.Characters.{left_bracket};
ghost use Rattle.spec_flow_text.specs.Actions.{no_field, field_in, written_field, slice_name};
ghost use Rattle.field_text.specs.WordViews.{word_view};

use field_text::{TextFault, Word, field_named, is_left_out_as_field};
use named_fields::named;
use spec_actions::NamedField;

/// How many bytes stand before the bracket of a slice.
pub fn slice_name_length(text: &[u8]) -> usize
    ensures value { result ≡ prefix_len (λ c. not (c == left_bracket)) text.now }
    ensures within { result ≤ length text.now }
{
    text.iter().take_while(|byte| **byte != b'[').count()
}

/// The name of a slice, which stands before its bracket.
#[tactic(auto, using(crate::proofs::Prefixes::taken_length))]
pub fn slice_name(word: Word<'_>) -> Word<'_>
    ensures { word_view result ≡ slice_name (word_view word.entry) }
{
    word.first(slice_name_length(word.text))
}

fn no_field(item: Word<'_>, name: Word<'_>) -> TextFault
    ensures { result ≡ no_field (word_view item.entry) (word_view name.entry) }
{
    if is_left_out_as_field(name.text) {
        TextFault::Unsupported { col: item.column() }
    } else {
        TextFault::UnknownName { col: name.column() }
    }
}

/// The field that a name in an item means.
#[tactic(auto, unfolding(spec_flow_text::specs::Actions::field_in))]
pub fn field_in(item: Word<'_>, name: Word<'_>) -> Result<NamedField, TextFault>
    ensures value { result ≡ field_in (word_view item.entry) (word_view name.entry) }
    ensures in_text { IfOk result (λ field. IsTrue (not (is_printed_alone field))) }
{
    match field_named(name.text) {
        Some(field) => Ok(field),
        None => Err(no_field(item, name)),
    }
}

fn is_written(field: NamedField) -> bool
    ensures { result ≡ is_written field }
{
    named(field).writable != 0
}

/// The same, of a field that can be written.
#[tactic(auto, unfolding(spec_flow_text::specs::Actions::written_field))]
pub fn written_field(item: Word<'_>, name: Word<'_>) -> Result<NamedField, TextFault>
    ensures value { result ≡ written_field (word_view item.entry) (word_view name.entry) }
    ensures written { IfOk result (λ field. IsTrue (is_written field)) }
    ensures in_text { IfOk result (λ field. IsTrue (not (is_printed_alone field))) }
{
    let field = field_in(item, name)?;
    if is_written(field) {
        Ok(field)
    } else {
        Err(TextFault::Unsupported { col: item.column() })
    }
}

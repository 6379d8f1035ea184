ghost use Rattle.std.specs.Prelude.{◌≡◌, ◌+◌, ◌<◌, ◌≤◌, ◌==◌, bytes_eq, length};
ghost use Rattle.spec_flow_text.specs.Lines.{first_word as word_at_start};
ghost use Rattle.spec_flow_text.specs.Matches.{uncommented};
ghost use Rattle.spec_input.specs.Lines.{is_blank};
ghost use Rattle.spec_input.specs.Script.{begins_with};
ghost use Rattle.field_text.specs.WordViews.{word_view};
ghost use Rattle.edit_script.specs.Fronts.{IsFront, is_empty};

use field_text::{Word, first_word, is_white, uncommented};

// Each word that tells what a line is has fewer bytes.
const LONG_WORD: usize = 14;

// As much of a text as tells its first word, if that is one of those.
fn few_bytes(text: &[u8]) -> &[u8]
    requires { length text.now ≤ 4_294_967_294 }
    ensures front { IsFront (word_at_start result.now) (word_at_start text.now) }
    ensures empty { is_empty (word_at_start result.now) ≡ is_empty (word_at_start text.now) }
    ensures within { length result.now ≤ length text.now }
{
    if text.len() <= LONG_WORD || is_white(text[0]) {
        return text;
    }
    let (few, _) = text.split_at(LONG_WORD);
    few
}

/// The first word of a line, before its comment, or as many bytes of it as tell what the line is. It is empty where nothing
/// but white space stands there.
pub fn front_of(line: &[u8]) -> Word<'_>
    requires { length line.now ≤ 4_294_967_294 }
    ensures front { IsFront (word_view result) (word_at_start (uncommented line.now)) }
    ensures within { result.at + length result.text.now ≤ length line.now }
    ensures blank { is_blank line.now ≡ (length result.text.now == 0) }
{
    first_word(few_bytes(uncommented(line)))
}

// Whether a text is this word.
fn is_word(word: &str, text: &[u8]) -> bool
    ensures { result ≡ bytes_eq word.now text.now }
{
    word.as_bytes() == text
}

/// Whether a line begins with this word, by its front.
pub fn begins_with(word: &str, line: &[u8], front: Word<'_>) -> bool
    requires short { length word.now < LONG_WORD }
    requires front { IsFront (word_view front) (word_at_start (uncommented line.now)) }
    ensures { result ≡ begins_with word.now line.now }
{
    let _ = line;
    is_word(word, front.text)
}

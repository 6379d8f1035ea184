ghost use Rattle.std.specs.Prelude.{◌≡◌, ◌≤◌, drop, length, position, not, IfOk};
ghost use Rattle.std.specs.Char.{is_ascii};
ghost use Rattle.spec_flow_text.specs.Items.{is_white, is_separator};
ghost use Rattle.spec_flow_text.specs.Matches.{uncommented, ascii_from};
ghost use Rattle.field_text.specs.WordViews.{text_read};

use crate::line::Word;
use spec_flow_text::TextFault;
use text_numbers::cut_at;

/// A space, a tab or a carriage return.
pub fn is_white(byte: u8) -> bool
    ensures { result ≡ is_white byte }
{
    byte == b' ' || byte == b'\t' || byte == b'\r'
}

/// A comma or white space.
pub fn is_separator(byte: u8) -> bool
    ensures { result ≡ is_separator byte }
{
    byte == b',' || is_white(byte)
}

/// A line without its comment.
pub fn uncommented(line: &[u8]) -> &[u8]
    ensures { result.now ≡ uncommented line.now }
{
    match cut_at(line, b'#') {
        None => line,
        Some((text, _)) => text,
    }
}

// What stands from a place on, where that isn't beyond the text.
fn text_after(line: &[u8], at: usize) -> &[u8]
    ensures { result.now ≡ drop at line.now }
{
    if at > line.len() {
        return &[];
    }
    let (_, text) = line.split_at(at);
    text
}

// The place of the first byte that isn't ASCII.
fn place_beyond_ascii(text: &[u8]) -> Option<usize>
    ensures { result ≡ position (λ byte. not (is_ascii byte)) text.now }
{
    // Mostly there is none, and std tests several bytes at once.
    if text.is_ascii() {
        return None;
    }
    text.iter().position(|byte| !byte.is_ascii())
}

/// What stands in a line from a place on, up to the comment. All of it has to be ASCII.
pub fn text_from(line: &[u8], at: usize) -> Result<Word<'_>, TextFault>
    requires within { at ≤ length line.now }
    requires short { length line.now ≤ 4_294_967_294 }
    ensures text { text_read result ≡ ascii_from at (uncommented line.now) }
    ensures place { IfOk result (λ w. w.at ≡ at) }
{
    let text = text_after(uncommented(line), at);
    match place_beyond_ascii(text) {
        None => Ok(Word { at, text }),
        Some(place) => Err(TextFault::Syntax {
            col: (at + place + 1) as u32,
        }),
    }
}

//! The lines of words: `sync` with a time, and `begin` and `commit`, which stand alone.
ghost use Rattle.std.specs.Prelude.{◌≡◌, ◌-◌, ◌*◌, ◌^◌, ◌≤◌, true, length, IfSome};
ghost use Rattle.std.specs.Option.{ok_or};
ghost use Rattle.spec_flow_text.specs.declared.fault.TextFault.TheVariants.{BadValue};
ghost use Rattle.spec_flow_text.specs.Items.{column, is_white, words};
ghost use Rattle.spec_input.specs.Script.{most_seconds, seconds_of, fraction_of, seconds_with_fraction, time_of, time_in_words, sync_time, column_in_words, word_alone};
ghost use Rattle.edit_script.specs.Begun.{begun_view};
ghost use Rattle.field_text.specs.WordViews.{word_view};

use field_text::{TextFault, WhiteSpace, Word, next_word, text_from};
use text_numbers::{cut_at, read_decimal, read_digits};

// The decimal digits of a fraction of a second in nanoseconds.
const NANOSECOND_DIGITS: usize = 9;

const NANOSECONDS_OF_A_SECOND: u64 = 1_000_000_000;

const MOST_NANOSECONDS: u128 = 999_999_999;

/// Where a bundle was begun.
#[derive(Clone, Copy)]
pub struct Begun {
    pub line: u32,
    pub column: u32,
}

// Whole seconds below 2^32, in nanoseconds.
#[tactic(auto, unfolding(spec_input::specs::Script::seconds_of))]
fn read_seconds(text: &[u8]) -> Option<u64>
    ensures value { result ≡ seconds_of text.now }
    ensures fits { IfSome result (λ n. n ≤ most_seconds * 10 ^ 9) }
{
    let seconds = read_decimal(text, u128::from(u32::MAX))?;
    Some(seconds as u64 * NANOSECONDS_OF_A_SECOND)
}

// Ten to the power of how many of the digits are left out.
fn digit_value(digits: usize) -> u64
    requires { digits ≤ 9 }
    ensures value { result ≡ 10 ^ (9 - digits) }
    ensures fits { result ≤ 10 ^ 9 }
{
    10u64.pow((NANOSECOND_DIGITS - digits) as u32)
}

// The fraction of a second that these digits write after a dot, in nanoseconds.
#[tactic(auto, unfolding(spec_input::specs::Script::fraction_of))]
fn read_fraction(digits: &[u8]) -> Option<u64>
    ensures value { result ≡ fraction_of digits.now }
    ensures fits { IfSome result (λ n. n ≤ 10 ^ 18) }
{
    if digits.len() > NANOSECOND_DIGITS {
        return None;
    }
    let number = read_digits(digits, 10, MOST_NANOSECONDS)?;
    Some(number as u64 * digit_value(digits.len()))
}

#[tactic(auto, unfolding(spec_input::specs::Script::seconds_with_fraction))]
fn read_seconds_with_fraction(whole: &[u8], digits: &[u8]) -> Option<u64>
    ensures { result ≡ seconds_with_fraction (whole.now, digits.now) }
{
    let seconds = read_seconds(whole)?;
    let fraction = read_fraction(digits)?;
    Some(seconds + fraction)
}

#[tactic(auto, unfolding(spec_input::specs::Script::time_of))]
fn read_time(word: &[u8]) -> Option<u64>
    ensures { result ≡ time_of word.now }
{
    match cut_at(word, b'.') {
        None => read_seconds(word),
        Some((whole, digits)) => read_seconds_with_fraction(whole, digits),
    }
}

// The time that a word of a line spells.
fn time_of_word(time: Word<'_>) -> Result<u64, TextFault>
    ensures { result
        ≡ ok_or (time_of time.entry.text.now) (BadValue (column (word_view time.entry))) }
{
    match read_time(time.text) {
        Some(nanoseconds) => Ok(nanoseconds),
        None => Err(TextFault::BadValue { col: time.column() }),
    }
}

// The time of a sync line without its comment: one word after `sync`. In a bundle none stands.
fn time_in_words(begun: Option<Begun>, text: Word<'_>) -> Result<u64, TextFault>
    ensures { result
        ≡ time_in_words (begun_view begun) (words is_white true text.entry.at text.entry.text.now) }
{
    let Some((sync, behind)) = next_word::<WhiteSpace>(text) else {
        return Err(TextFault::Syntax { col: 1 });
    };
    let col = sync.column();
    match begun {
        None => {}
        Some(_) => return Err(TextFault::Syntax { col }),
    }
    let Some((time, behind)) = next_word::<WhiteSpace>(behind) else {
        return Err(TextFault::Syntax { col });
    };
    match next_word::<WhiteSpace>(behind) {
        Some(_) => Err(TextFault::Syntax { col }),
        None => time_of_word(time),
    }
}

// The column of the word of a line without its comment, where it stands alone and may stand there.
fn column_in_words(may_stand: bool, text: Word<'_>) -> Result<u32, TextFault>
    ensures { result
        ≡ column_in_words may_stand (words is_white true text.entry.at text.entry.text.now) }
{
    let Some((word, behind)) = next_word::<WhiteSpace>(text) else {
        return Err(TextFault::Syntax { col: 1 });
    };
    let col = word.column();
    if !may_stand {
        return Err(TextFault::Syntax { col });
    }
    match next_word::<WhiteSpace>(behind) {
        Some((next, _)) => Err(TextFault::Syntax { col: next.column() }),
        None => Ok(col),
    }
}

/// The time of a sync line, in nanoseconds: after `sync` one word, of seconds from 0 to 4,294,967,295 and perhaps a dot
/// and one to nine digits. There is none in a bundle.
#[tactic(auto, unfolding(spec_input::specs::Script::sync_time))]
pub fn read_sync_time(begun: Option<Begun>, line: &[u8]) -> Result<u64, TextFault>
    requires { length line.now ≤ 4_294_967_294 }
    ensures { result ≡ sync_time (begun_view begun) line.now }
{
    let text = text_from(line, 0)?;
    time_in_words(begun, text)
}

/// The column of the word of a line, where it stands alone and may stand there.
#[tactic(auto, unfolding(spec_input::specs::Script::word_alone))]
pub fn read_word_alone(may_stand: bool, line: &[u8]) -> Result<u32, TextFault>
    requires { length line.now ≤ 4_294_967_294 }
    ensures { result ≡ word_alone may_stand line.now }
{
    let text = text_from(line, 0)?;
    column_in_words(may_stand, text)
}

//! The step of a line.
ghost use Rattle.std.specs.Prelude.{◌≡◌, []};
ghost use Rattle.spec_input.specs.Steps.{Alone, shape_of, number_in, of_switch, port_in, one_value, two_values, with_values, step_in};
ghost use Rattle.port_scripts.specs.Values.{read_as, words_at, port_value, port_and_number};
ghost use Rattle.field_text.specs.WordViews.{word_view};

use crate::step_words::{Blanks, step_word};
use field_text::{TextFault, Word, next_word};
use spec_case::RunStep;
use spec_input::steps::StepWord;
use text_numbers::read_decimal;

// The number that a word says, from 1.
#[tactic(auto, unfolding(spec_input::specs::Steps::number_in))]
fn number_in(word: Word<'_>) -> Result<u32, TextFault>
    ensures { result ≡ number_in (word_view word.entry) }
{
    match read_decimal(word.text, u128::from(u32::MAX)) {
        Some(number) if number > 0 => Ok(number as u32),
        _ => Err(TextFault::BadValue { col: word.column() }),
    }
}

// The port of the switch that has this number.
fn of_switch(ports: &[u16], number: u32) -> Option<u16>
    ensures { result ≡ of_switch ports.now number }
{
    ports
        .iter()
        .copied()
        .find(|port| u32::from(*port) == number)
}

// The port that a word says, which is one of the switch's.
#[tactic(auto, unfolding(spec_input::specs::Steps::port_in))]
fn port_in(ports: &[u16], word: Word<'_>) -> Result<u16, TextFault>
    ensures { result ≡ port_in ports.now (word_view word.entry) }
{
    let number = number_in(word)?;
    match of_switch(ports, number) {
        Some(port) => Ok(port),
        None => Err(TextFault::BadValue { col: word.column() }),
    }
}

// The one word of a stretch.
fn one_value<'a>(first: Word<'_>, values: Word<'a>) -> Result<Word<'a>, TextFault>
    ensures { read_as word_view result ≡ one_value (word_view first.entry) (words_at (word_view values.entry)) }
{
    let col = first.column();
    let Some((value, behind)) = next_word::<Blanks>(values) else {
        return Err(TextFault::Syntax { col });
    };
    match next_word::<Blanks>(behind) {
        None => Ok(value),
        Some(_) => Err(TextFault::Syntax { col }),
    }
}

// The two words of a stretch.
fn two_values<'a>(first: Word<'_>, values: Word<'a>) -> Result<(Word<'a>, Word<'a>), TextFault>
    ensures { read_as (λ p. (word_view p.0, word_view p.1)) result
        ≡ two_values (word_view first.entry) (words_at (word_view values.entry)) }
{
    let col = first.column();
    let Some((value, behind)) = next_word::<Blanks>(values) else {
        return Err(TextFault::Syntax { col });
    };
    let Some((second, behind)) = next_word::<Blanks>(behind) else {
        return Err(TextFault::Syntax { col });
    };
    match next_word::<Blanks>(behind) {
        None => Ok((value, second)),
        Some(_) => Err(TextFault::Syntax { col }),
    }
}

// The step that stands alone, where no word follows.
fn alone(first: Word<'_>, values: Word<'_>, step: RunStep) -> Result<RunStep, TextFault>
    ensures { result ≡ with_values [] (word_view first.entry) (Alone step) (words_at (word_view values.entry)) }
{
    match next_word::<Blanks>(values) {
        None => Ok(step),
        Some(_) => Err(TextFault::Syntax {
            col: first.column(),
        }),
    }
}

fn port_value(ports: &[u16], first: Word<'_>, values: Word<'_>) -> Result<u16, TextFault>
    ensures { result ≡ port_value ports.now (word_view first.entry) (words_at (word_view values.entry)) }
{
    let value = one_value(first, values)?;
    port_in(ports, value)
}

fn port_and_number(
    ports: &[u16],
    first: Word<'_>,
    values: Word<'_>,
) -> Result<(u16, u32), TextFault>
    ensures { result
        ≡ port_and_number ports.now (word_view first.entry) (words_at (word_view values.entry)) }
{
    let (value, second) = two_values(first, values)?;
    let port = port_in(ports, value)?;
    let number = number_in(second)?;
    Ok((port, number))
}

// The step of a word, by what follows it.
fn with_values(
    ports: &[u16],
    first: Word<'_>,
    word: StepWord,
    values: Word<'_>,
) -> Result<RunStep, TextFault>
    ensures { result
        ≡ with_values ports.now (word_view first.entry) (shape_of word) (words_at (word_view values.entry)) }
{
    match word {
        StepWord::Edit => alone(first, values, RunStep::Edit),
        StepWord::Rx => {
            let port = port_value(ports, first, values)?;
            Ok(RunStep::Rx { port })
        }
        StepWord::Snap => {
            let (port, place) = port_and_number(ports, first, values)?;
            Ok(RunStep::Snap { port, place })
        }
        StepWord::Settle => {
            let (port, place) = port_and_number(ports, first, values)?;
            Ok(RunStep::Settle { port, place })
        }
        StepWord::Sweep => {
            let port = port_value(ports, first, values)?;
            Ok(RunStep::Sweep { port })
        }
        StepWord::Check => {
            let (port, entry) = port_and_number(ports, first, values)?;
            Ok(RunStep::Check { port, entry })
        }
        StepWord::Put => {
            let (port, entry) = port_and_number(ports, first, values)?;
            Ok(RunStep::Put { port, entry })
        }
        StepWord::Swept => {
            let port = port_value(ports, first, values)?;
            Ok(RunStep::Swept { port })
        }
        StepWord::Open => {
            let port = port_value(ports, first, values)?;
            Ok(RunStep::Open { port })
        }
    }
}

/// The step of a line's first word and of those behind it, for a switch of these ports.
#[tactic(auto, unfolding(spec_input::specs::Steps::step_in))]
pub fn step_in(ports: &[u16], first: Word<'_>, values: Word<'_>) -> Result<RunStep, TextFault>
    ensures { result ≡ step_in ports.now (word_view first.entry) (words_at (word_view values.entry)) }
{
    match step_word(first.text) {
        None => Err(TextFault::UnknownName {
            col: first.column(),
        }),
        Some(word) => with_values(ports, first, word, values),
    }
}

//! Steps as texts, each added to the end of a line. After an error it isn't said what the line has.
ghost use Rattle.std.specs.Prelude.{◌≡◌, ◌++◌, OnOk, All, codes, string_bytes};
ghost use Rattle.std.specs.Fmt.{decimal};
ghost use Rattle.spec_board.specs.Texts.{dropped_text, followed_by, looked_text, put_text, settled_text, step_text, word_with};
ghost use Rattle.board_steps.specs.StepViews.{settled_view, step_view};
ghost use Rattle.board_steps.specs.Printable.{IsPrintable, IsPrintableLooked, IsPrintableSettled, IsPrintableStep};

use crate::step::{Settled, Step};
use itoa::Buffer;
use spec_board::{Looked, PutDone};
use std::alloc::AllocError;

// Adds a space and a number.
fn push_number(line: &mut String, number: u32) -> Result<(), AllocError>
    ensures text { OnOk result (string_bytes line.new ≡ string_bytes line.old ++ (codes " " ++ decimal number)) }
    ensures printable { IsPrintable number }
{
    line.push(' ')?;
    line.push_str(Buffer::new().format(number))
}

// Adds a word, a space and a number.
fn push_word_with(line: &mut String, word: &str, number: u32) -> Result<(), AllocError>
    ensures text { OnOk result (string_bytes line.new ≡ string_bytes line.old ++ word_with word.now number) }
    ensures printable { IsPrintable number }
{
    line.push_str(word)?;
    push_number(line, number)
}

// Adds a number.
fn push_decimal(line: &mut String, number: u32) -> Result<(), AllocError>
    ensures text { OnOk result (string_bytes line.new ≡ string_bytes line.old ++ decimal number) }
    ensures printable { IsPrintable number }
{
    line.push_str(Buffer::new().format(number))
}

// Adds a space and what a look found.
fn push_looked(line: &mut String, looked: &Looked) -> Result<(), AllocError>
    ensures text { OnOk result
        (string_bytes line.new ≡ string_bytes line.old ++ (codes " " ++ looked_text looked.now)) }
    ensures printable { OnOk result (IsPrintableLooked looked.now) }
{
    match looked {
        Looked::Exact(entry) => {
            line.push_str(" exact ")?;
            push_decimal(line, *entry)
        }
        Looked::Mega(entry) => {
            line.push_str(" mega ")?;
            push_decimal(line, *entry)
        }
        Looked::Miss => line.push_str(" miss"),
    }
}

// Adds the text of a look.
fn push_look(line: &mut String, place: u32, looked: &Looked) -> Result<(), AllocError>
    ensures text { OnOk result (string_bytes line.new
        ≡ string_bytes line.old ++ followed_by (word_with (codes "look") place) (looked_text looked.now)) }
    ensures printable { OnOk result ((IsPrintable place) × (IsPrintableLooked looked.now)) }
{
    line.push_str("look ")?;
    push_decimal(line, place)?;
    push_looked(line, looked)
}

fn push_dropped(line: &mut String, dropped: &[u32]) -> Result<(), AllocError>
    ensures text { OnOk result (string_bytes line.new ≡ string_bytes line.old ++ dropped_text dropped.now) }
    ensures printable { OnOk result (All IsPrintable dropped.now) }
{
    if dropped.is_empty() {
        return Ok(());
    }
    line.push_str(" drop")?;
    'numbers: for entry in dropped {
        push_number(line, *entry)?;
    }
    Ok(())
}

fn push_settled(line: &mut String, settled: &Settled) -> Result<(), AllocError>
    ensures text { OnOk result (string_bytes line.new ≡ string_bytes line.old ++ settled_text (settled_view settled.now)) }
    ensures printable { OnOk result (IsPrintableSettled (settled_view settled.now)) }
{
    match settled {
        Settled::Present(entry) => push_word_with(line, "present", *entry),
        Settled::Full => line.push_str("full"),
        Settled::Installed { no, dropped } => {
            push_word_with(line, "installed", *no)?;
            push_dropped(line, dropped.as_slice())
        }
    }
}

fn push_put(line: &mut String, put: PutDone) -> Result<(), AllocError>
    ensures { OnOk result (string_bytes line.new ≡ string_bytes line.old ++ put_text put) }
{
    line.push_str(match put {
        PutDone::Idle => "idle",
        PutDone::Removed => "removed",
        PutDone::Kept => "kept",
        PutDone::Replaced => "replaced",
    })
}

/// Adds the text of a step, without a line feed.
pub fn push_step(line: &mut String, step: &Step) -> Result<(), AllocError>
    ensures text { OnOk result (string_bytes line.new ≡ string_bytes line.old ++ step_text (step_view step.now)) }
    ensures printable { OnOk result (IsPrintableStep (step_view step.now)) }
{
    match step {
        Step::Open { block } => push_word_with(line, "open", *block),
        Step::Look { place, result } => push_look(line, *place, result),
        Step::Settle {
            place,
            version,
            result,
        } => {
            push_word_with(line, "settle", *place)?;
            push_number(line, *version)?;
            line.push(' ')?;
            push_settled(line, result)
        }
        Step::Begin { version } => push_word_with(line, "begin", *version),
        Step::Put {
            entry,
            version,
            result,
        } => {
            push_word_with(line, "put", *entry)?;
            push_number(line, *version)?;
            line.push(' ')?;
            push_put(line, *result)
        }
        Step::End => line.push_str("end"),
    }
}

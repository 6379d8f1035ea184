ghost use Rattle.std.specs.Prelude.{◌≡◌, ◌++◌, All, OnOk, codes, string_bytes};
ghost use Rattle.spec_board.specs.Texts.{line_of, word_with, step_text, journal_text};
ghost use Rattle.edge_io.specs.declared.outside.InUse.TheVariants.{Created};
ghost use Rattle.board_steps.specs.StepViews.{step_view, steps_view};
ghost use Rattle.pmd_board.specs.BoardView.{journal_view};
ghost use Rattle.flow_dump.specs.Lines.{steps_text};
ghost use Rattle.edge_io.specs.Written.{WritesAll};
ghost use Rattle.board_steps.specs.Printable.{IsPrintable, IsPrintableStep, IsPrintableJournal};

use crate::look_line::LookLine;
use board_steps::{Step, push_step};
use edge_io::{Failed, Shelf, write_all};
use pmd_board::Board;
use run_case::Case;
use spec_board::Looked;
use std::alloc::{AllocError, Global};
use std::fmt::Write;

// How many steps are written in one piece.
const STEPS_AT_ONCE: usize = 64;

// Writes the line with a line feed. It isn't said what the buffer has then.
fn write_line<S: Shelf>(shelf: &mut S, line: &mut String) -> Result<(), Failed>
    requires { S.in_use shelf.old ≡ Created }
    ensures writes { let text = line_of (string_bytes line.old) in
        WritesAll S.Shelf shelf.old shelf.new text result }
{
    line.push('\n')?;
    write_all(shelf, line.as_bytes())
}

// Writes the line of a port.
fn write_port<S: Shelf>(shelf: &mut S, line: &mut String, port: u16) -> Result<(), Failed>
    requires { S.in_use shelf.old ≡ Created }
    ensures writes { let text = line_of (word_with (codes "port") port) in
        WritesAll S.Shelf shelf.old shelf.new text result }
    ensures printable { IsPrintable port }
{
    line.clear();
    write!(line, "port {port}")?;
    write_line(shelf, line)
}

// Adds the line of a step. After an error it isn't said what the text has.
fn push_line(
    text: &mut Vec<u8>,
    looks: &mut LookLine,
    line: &mut String,
    step: &Step,
) -> Result<(), AllocError>
    ensures text { OnOk result
        (text.new.items ≡ text.old.items ++ line_of (step_text (step_view step.now))) }
    ensures printable { OnOk result (IsPrintableStep (step_view step.now)) }
{
    if let Step::Look { place, result } = step {
        return looks.push_to(text, *place, *result);
    }
    line.clear();
    push_step(line, step)?;
    text.extend_from_slice(line.as_bytes())?;
    text.push(b'\n')?;
    Ok(())
}

// Adds the lines of steps. After an error it isn't said what the text has.
fn push_lines(
    text: &mut Vec<u8>,
    looks: &mut LookLine,
    line: &mut String,
    steps: &[Step],
) -> Result<(), AllocError>
    ensures text { OnOk result (text.new.items ≡ text.old.items ++ steps_text (steps_view steps.now)) }
    ensures printable { OnOk result (All (λ step. IsPrintableStep (step_view step)) steps.now) }
{
    'steps: for step in steps {
        push_line(text, looks, line, step)?;
    }
    Ok(())
}

// Writes the lines of steps in one piece.
fn write_lines<S: Shelf>(
    shelf: &mut S,
    text: &mut Vec<u8>,
    looks: &mut LookLine,
    line: &mut String,
    steps: &[Step],
) -> Result<(), Failed>
    requires { S.in_use shelf.old ≡ Created }
    ensures writes { let text = steps_text (steps_view steps.now) in
        WritesAll S.Shelf shelf.old shelf.new text result }
    ensures printable { OnOk result (All (λ step. IsPrintableStep (step_view step)) steps.now) }
{
    text.clear();
    push_lines(text, looks, line, steps)?;
    write_all(shelf, text)
}

// Writes the lines of steps, so many at once that the calls of the shelf are few.
fn write_steps<S: Shelf>(
    alloc: Global,
    shelf: &mut S,
    line: &mut String,
    steps: &[Step],
) -> Result<(), Failed>
    requires { S.in_use shelf.old ≡ Created }
    ensures writes { let text = steps_text (steps_view steps.now) in
        WritesAll S.Shelf shelf.old shelf.new text result }
    ensures printable { OnOk result (All IsPrintableStep (steps_view steps.now)) }
{
    let mut text = Vec::new(alloc);
    let mut looks = LookLine::of(alloc, 0, Looked::Miss)?;
    let mut done = 0;
    'pieces: while done < steps.len() {
        let end = steps.len().min(done + STEPS_AT_ONCE);
        write_lines(shelf, &mut text, &mut looks, line, &steps[done..end])?;
        done = end;
    }
    Ok(())
}

/// Writes the text of the journal of a board.
pub(crate) fn write_journal<C: Case, S: Shelf>(
    alloc: Global,
    shelf: &mut S,
    line: &mut String,
    board: &Board<C>,
) -> Result<(), Failed>
    requires { S.in_use shelf.old ≡ Created }
    ensures writes { let text = journal_text (journal_view board.now) in
        WritesAll S.Shelf shelf.old shelf.new text result }
    ensures printable { OnOk result (IsPrintableJournal (journal_view board.now)) }
{
    write_port(shelf, line, board.port())?;
    write_steps(alloc, shelf, line, board.journal())
}

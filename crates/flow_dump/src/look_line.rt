//! The lines of looks, each made of the one before.
//!
//! Looks follow one another whose places differ in the last digit, and that found the same. So a line is kept, and in it
//! the last digit of the place is written over, since to print a number takes longer than to copy a line.
ghost use Rattle.std.specs.Prelude.{◌≡◌, ◌++◌, IfOk, OnOk};
ghost use Rattle.std.specs.Fmt.{decimal};
ghost use Rattle.spec_board.specs.Steps.{Look};
ghost use Rattle.spec_board.specs.Texts.{line_of, step_text};
ghost use Rattle.board_steps.specs.Printable.{IsPrintableLooked, IsPrintableStep};
ghost use Rattle.flow_dump.specs.LookLines.{leading, tail_text, IsLookLine};

use itoa::Buffer;
use spec_board::Looked;
use std::alloc::{AllocError, Global};

// How long a line is at most, with two numbers of 32 bits.
const LINE_ROOM: usize = 33;

// Adds a word and a number.
fn push_with(text: &mut Vec<u8>, word: &[u8], number: u32) -> Result<(), AllocError>
    ensures { OnOk result (text.new.items ≡ text.old.items ++ (word.now ++ decimal number)) }
{
    text.extend_from_slice(word)?;
    text.extend_from_slice(Buffer::new().format(number).as_bytes())
}

// Adds the digits of a place before its last one.
#[tactic(auto, using(crate::proofs::LookLines::leading_some))]
fn push_leading(text: &mut Vec<u8>, tens: u32) -> Result<(), AllocError>
    ensures { OnOk result (text.new.items ≡ text.old.items ++ leading tens) }
{
    if tens == 0 {
        return Ok(());
    }
    text.extend_from_slice(Buffer::new().format(tens).as_bytes())
}

// Adds the end of a line, behind the place.
fn push_tail(text: &mut Vec<u8>, found: Looked) -> Result<(), AllocError>
    ensures { OnOk result (text.new.items ≡ text.old.items ++ tail_text found) }
{
    match found {
        Looked::Exact(entry) => push_with(text, b" exact ", entry)?,
        Looked::Mega(entry) => push_with(text, b" mega ", entry)?,
        Looked::Miss => text.extend_from_slice(b" miss")?,
    }
    text.push(b'\n')?;
    Ok(())
}

// All numbers of what was found are printed whole.
fn found_is_printable(found: Looked)
    ensures { IsPrintableLooked found }
{
    match found {
        Looked::Exact(_) => {}
        Looked::Mega(_) => {}
        Looked::Miss => {}
    }
}

/// The line of a look, but for the last digit of its place.
#[derive(Drop)]
pub(crate) struct LookLine {
    alloc: Global,
    // The place without its last digit.
    tens: u32,
    found: Looked,
    text: Vec<u8>,
    // Where the last digit stands.
    digit: usize,
    ghost is_line: { IsLookLine tens found digit text.items },
}

impl LookLine {
    /// The line of looks that found this, at places of these tens. The only error is out of memory.
    pub(crate) fn of(alloc: Global, tens: u32, found: Looked) -> Result<LookLine, AllocError>
        ensures tens { IfOk result (λ line. line.tens ≡ tens) }
        ensures found { IfOk result (λ line. line.found ≡ found) }
    {
        let mut text = Vec::with_capacity(alloc, LINE_ROOM)?;
        text.extend_from_slice(b"look ")?;
        push_leading(&mut text, tens)?;
        let digit = text.len();
        text.push(b'0')?;
        push_tail(&mut text, found)?;
        Ok(LookLine {
            alloc,
            tens,
            found,
            text,
            digit,
        })
    }

    // Becomes the line of looks that found this, at places of these tens.
    fn turn_to(&mut self, tens: u32, found: Looked) -> Result<(), AllocError>
        ensures tens { OnOk result (self.new.tens ≡ tens) }
        ensures found { OnOk result (self.new.found ≡ found) }
    {
        if self.tens != tens || self.found != found {
            *self = LookLine::of(self.alloc, tens, found)?;
        }
        Ok(())
    }

    /// Adds the line of a look. After an error it isn't said what the text has.
    pub(crate) fn push_to(
        &mut self,
        text: &mut Vec<u8>,
        place: u32,
        found: Looked,
    ) -> Result<(), AllocError>
        ensures text { OnOk result
            (text.new.items ≡ text.old.items ++ line_of (step_text (Look place found))) }
        ensures printable { IsPrintableStep (Look place found) }
    {
        found_is_printable(found);
        self.turn_to(place / 10, found)?;
        self.text[self.digit] = b'0' + (place % 10) as u8;
        text.extend_from_slice(&self.text)?;
        Ok(())
    }
}

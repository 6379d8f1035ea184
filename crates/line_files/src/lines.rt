ghost use Rattle.std.specs.Prelude.{◌≡◌, ◌≤◌, ℕ, List, Result, length, IfOk};
ghost use Rattle.spec_input.specs.Given.{Gives};
ghost use Rattle.spec_input.specs.Lines.{most_line_bytes, with_next, said_by};
ghost use Rattle.spec_input.specs.declared.fault.FileFault.{FileFault as Fault};

use spec_input::FileFault;
use text_numbers::cut_at;

// The most bytes of a line without its line feed.
const MOST_LINE_BYTES: usize = 4096;

/// What reads the lines of a kind of file.
pub trait LineReader {
    /// What lines say.
    type Read: Drop;

    /// What it is seen as.
    ghost Said: { Type 0 };

    ghost said: { Self.Read → Said };

    /// What every line keeps of it.
    ghost is_kept: { Self.Read → Type 0 };

    /// What lines say with one more, which has a number.
    ghost after_line: { Self → ℕ → List ℕ → Said → Result Said Fault };

    /// What lines say with one more, or what is wrong with it.
    fn read_line(&self, number: u32, line: &[u8], read: Self::Read) -> Result<Self::Read, FileFault>
        requires short { length line.now ≤ most_line_bytes }
        requires kept { is_kept read }
        ensures value { Gives said result (after_line self.now number line.now (said read)) }
        ensures kept { IfOk result (λ r. is_kept r) };
}

// What lines say with one more, whose length is tested first.
fn read_next<R: LineReader>(
    reader: &R,
    number: u32,
    line: &[u8],
    read: R::Read,
) -> Result<R::Read, FileFault>
    requires { R.is_kept read }
    ensures value { Gives R.said result
        (with_next (R.after_line reader.now) number line.now (R.said read)) }
    ensures kept { IfOk result (λ r. R.is_kept r) }
{
    if line.len() > MOST_LINE_BYTES {
        return Err(FileFault::LineTooLong);
    }
    reader.read_line(number, line, read)
}

/// What the lines of a file say, of which nothing was read.
///
/// A fault is the first of the file. Lines are counted from 1.
pub fn read_lines<R: LineReader>(
    reader: &R,
    bytes: &[u8],
    nothing: R::Read,
) -> Result<R::Read, FileFault>
    requires short { length bytes.now ≤ 4_294_967_294 }
    requires kept { R.is_kept nothing }
    ensures value { Gives R.said result (said_by (R.after_line reader.now) bytes.now (R.said nothing)) }
    ensures kept { IfOk result (λ r. R.is_kept r) }
{
    let mut read = nothing;
    let mut number: u32 = 1;
    let mut rest = bytes;
    'lines: while let Some((line, more)) = cut_at(rest, b'\n') {
        read = read_next(reader, number, line, read)?;
        number += 1;
        rest = more;
    }
    read_next(reader, number, rest, read)
}

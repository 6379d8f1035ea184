//! The mirrors of a file.
ghost use Rattle.std.specs.Prelude.{◌≡◌, ◌≤◌, List, length, IfOk};
ghost use Rattle.spec_input.specs.Given.{Gives};
ghost use Rattle.spec_input.specs.Lines.{most_line_bytes, is_blank};
ghost use Rattle.spec_input.specs.Mirrors as files;
ghost use Rattle.spec_input.specs.Mirrors.{most_mirrors_bytes, most_mirrors, with_line, mirrors_in};

use crate::mirror_line::read_mirror;
use field_text::{is_white, uncommented};
use line_files::{LineReader, in_line, read_lines};
use spec_input::FileFault;
use spec_input::mirrors::Mirror;
use std::alloc::Global;

/// The most bytes of a mirrors file.
pub const MOST_MIRRORS_BYTES: usize = 65_536;

/// The most mirrors of a file.
pub const MOST_MIRRORS: usize = 16;

// Whether a line has nothing but white space before its comment.
fn is_blank(line: &[u8]) -> bool
    ensures { result ≡ is_blank line.now }
{
    uncommented(line).iter().all(|byte| is_white(*byte))
}

// What reads mirrors, for a switch of these ports.
#[derive(Drop)]
struct MirrorReader<'a> {
    alloc: Global,
    ports: &'a [u16],
}

impl LineReader for MirrorReader<'_> {
    type Read = Vec<Mirror>;

    ghost Said = { List files.Mirror };

    ghost said = { λ mirrors. mirrors.items };

    ghost is_kept = { λ mirrors. length mirrors.items ≤ most_mirrors };

    ghost after_line = { λ reader. with_line reader.ports.now };

    // The mirrors with that of one more line.
    #[tactic(auto, unfolding(spec_input::specs::Mirrors::with_line))]
    fn read_line(
        &self,
        number: u32,
        line: &[u8],
        mut mirrors: Vec<Mirror>,
    ) -> Result<Vec<Mirror>, FileFault> {
        if is_blank(line) {
            return Ok(mirrors);
        }
        if mirrors.len() >= MOST_MIRRORS {
            return Err(FileFault::TooManyMirrors);
        }
        let mirror = in_line(number, read_mirror(self.alloc, self.ports, line))?;
        mirrors.push(mirror)?;
        Ok(mirrors)
    }
}

/// The mirrors of the bytes of a file, of which there are at most `MOST_MIRRORS_BYTES`, for a switch of these ports. They
/// are at most `MOST_MIRRORS`.
///
/// A fault is the first of the file. Lines of it are counted from 1, and so are columns. In a line the length is tested
/// first, then the number of mirrors, then its items from left to right.
#[tactic(auto, unfolding(spec_input::specs::Mirrors::mirrors_in))]
pub fn read_mirrors(alloc: Global, bytes: &[u8], ports: &[u16]) -> Result<Vec<Mirror>, FileFault>
    requires { length bytes.now ≤ most_mirrors_bytes }
    ensures mirrors { Gives (λ v. v.items) result (mirrors_in ports.now bytes.now) }
    ensures few { IfOk result (λ v. length v.items ≤ most_mirrors) }
{
    read_lines(&MirrorReader { alloc, ports }, bytes, Vec::new(alloc))
}

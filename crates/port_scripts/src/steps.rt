//! The steps of a file.
ghost use Rattle.std.specs.Prelude.{◌≡◌, ◌≤◌, List, length, IfOk};
ghost use Rattle.spec_case.specs.declared.run_step.RunStep.{RunStep as Step};
ghost use Rattle.spec_input.specs.Given.{Gives};
ghost use Rattle.spec_input.specs.Lines.{most_line_bytes};
ghost use Rattle.spec_input.specs.Steps.{most_steps, with_line, steps_of};

use crate::step_line::step_in;
use crate::step_words::Blanks;
use field_text::{Word, next_word, uncommented};
use line_files::{LineReader, in_line, read_lines};
use spec_case::RunStep;
use spec_input::FileFault;
use std::alloc::Global;

/// The most bytes of a steps file.
pub const MOST_STEPS_BYTES: usize = 4_194_304;

/// The most steps of a file.
pub const MOST_STEPS: usize = 131_072;

// What reads steps, for a switch of these ports.
#[derive(Drop)]
struct StepReader<'a> {
    ports: &'a [u16],
}

impl LineReader for StepReader<'_> {
    type Read = Vec<RunStep>;

    ghost Said = { List Step };

    ghost said = { λ steps. steps.items };

    ghost is_kept = { λ steps. length steps.items ≤ most_steps };

    ghost after_line = { λ reader. with_line reader.ports.now };

    // The steps with that of one more line.
    #[tactic(auto, unfolding(spec_input::specs::Steps::with_line, spec_input::specs::Steps::with_words))]
    fn read_line(
        &self,
        number: u32,
        line: &[u8],
        mut steps: Vec<RunStep>,
    ) -> Result<Vec<RunStep>, FileFault> {
        let text = uncommented(line);
        let Some((first, values)) = next_word::<Blanks>(Word { at: 0, text }) else {
            return Ok(steps);
        };
        if steps.len() >= MOST_STEPS {
            return Err(FileFault::TooManySteps);
        }
        let step = in_line(number, step_in(self.ports, first, values))?;
        steps.push(step)?;
        Ok(steps)
    }
}

/// The steps of the bytes of a file, of which there are at most `MOST_STEPS_BYTES`, for a switch of these ports.
///
/// A fault is the first of the file. Lines of it are counted from 1, and so are columns.
#[tactic(auto, unfolding(spec_input::specs::Steps::steps_of))]
pub fn read_steps(alloc: Global, bytes: &[u8], ports: &[u16]) -> Result<Vec<RunStep>, FileFault>
    requires { length bytes.now ≤ 4_194_304 }
    ensures steps { Gives (λ v. v.items) result (steps_of ports.now bytes.now) }
    ensures few { IfOk result (λ v. length v.items ≤ most_steps) }
{
    read_lines(&StepReader { ports }, bytes, Vec::new(alloc))
}

//! The words of the command line, and the files that they name.
ghost use Rattle.std.specs.Prelude.{IfOk};
ghost use Rattle.switch_input.specs.InputViews.{IsWithinLimits};

use crate::numbers::{number_of, split_rounds};
use anyhow::{Result, anyhow};
use edge_io::real::RealShelf;
use switch_input::{Input, Inputs, read_inputs};

/// What the words of the command line say, and what their files have.
#[derive(Drop)]
pub struct Command<'a> {
    pub inputs: Inputs<'a>,
    /// The most megaflows of a port.
    pub flow_limit: u32,
    /// How many times the run is carried out.
    pub rounds: u32,
}

/// What the words of the switch and their files have.
fn inputs_of<'a>(rt: &HostRuntime, words: &'a [String]) -> Result<Inputs<'a>>
    ensures { IfOk result IsWithinLimits }
{
    match read_inputs(rt.alloc(), words, &mut RealShelf::new(rt)) {
        Ok(inputs) => Ok(inputs),
        Err(_) => Err(anyhow!("the switch refuses these words, or a file that they name")),
    }
}

/// The most megaflows of a port.
fn flow_limit_of(inputs: &Inputs<'_>) -> Result<u32> {
    match &inputs.command.input {
        Input::Files(files) => number_of("megaflows", files.out),
        Input::Made { .. } => Ok(inputs.command.flow_limit),
    }
}

/// Reads the words of the command line and the files that they name, as the switch does.
pub fn read_command<'a>(rt: &HostRuntime, words: &'a [String]) -> Result<Command<'a>>
    ensures { IfOk result (λ command. IsWithinLimits command.inputs) }
{
    let (words, rounds) = split_rounds(words)?;
    let inputs = inputs_of(rt, words)?;
    match flow_limit_of(&inputs) {
        Ok(flow_limit) => Ok(Command {
            inputs,
            flow_limit,
            rounds: rounds.unwrap_or(1),
        }),
        Err(error) => {
            drop(inputs);
            Err(error)
        }
    }
}

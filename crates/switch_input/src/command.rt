//! The command that the words ask for.
ghost use Rattle.std.specs.Prelude.{◌≡◌, Ok, IfOk, IfErr};
ghost use Rattle.spec_run.specs.Verdict.{command_in};
ghost use Rattle.command_words.specs.PortViews.{ArePorts};
ghost use Rattle.command_words.specs.CommandViews.{texts, command_view, IfFiles, HasWorkers};
ghost use Rattle.switch_input.specs.Refused.{Explains, TellsNoFault};

use crate::refusals::{InputFault, InputRefusal};
use command_words::Command;
use std::alloc::Global;

/// Reads the words of the command line.
#[tactic(auto, unfolding(spec_run::specs::Verdict::command_in))]
pub fn read_command(alloc: Global, words: &[String]) -> Result<Command<'_>, InputRefusal<'_>>
    ensures ok { IfOk result (λ c. command_in (texts words.now) ≡ Ok (command_view c)) }
    ensures err { IfErr result (Explains (command_in (texts words.now))) }
    ensures no_fault { IfErr result TellsNoFault }
    ensures ports { IfOk result (λ c. IfFiles c.input ArePorts) }
    ensures workers { IfOk result HasWorkers }
{
    match command_words::read_command(alloc, words)? {
        Some(command) => Ok(command),
        None => Err(InputRefusal::Input(InputFault::Usage)),
    }
}

ghost use Rattle.std.specs.Prelude.{◌≡◌};
ghost use Rattle.switch_app.specs.declared.refusal.Refusal.TheVariants.{Reading, Output};

use switch_input::InputRefusal;
use switch_output::OutputRefusal;

/// Why a run was refused.
#[derive(Drop)]
pub enum Refusal<'a> {
    /// The words and the files were not read.
    Reading(InputRefusal<'a>),
    /// They were, and what became of the run was not told whole.
    Output(OutputRefusal),
}

impl<'a> From<InputRefusal<'a>> for Refusal<'a> {
    ghost from_gives = { λ r e. e ≡ Reading r };

    fn from(refusal: InputRefusal<'a>) -> Self {
        Refusal::Reading(refusal)
    }
}

impl From<OutputRefusal> for Refusal<'_> {
    ghost from_gives = { λ r e. e ≡ Output r };

    fn from(refusal: OutputRefusal) -> Self {
        Refusal::Output(refusal)
    }
}

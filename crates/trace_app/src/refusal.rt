ghost use Rattle.std.specs.Prelude.{◌≡◌};
ghost use Rattle.trace_app.specs.declared.refusal.Refusal.TheVariants.{Reading, Printing};
ghost use Rattle.switch_input.specs.declared.refusals.refusal.InputRefusal.TheVariants.{OutOfMemory};

use edge_io::Failed;
use std::alloc::AllocError;
use switch_input::refusals::InputRefusal;

/// Why there is no trace. Names are those of the words.
#[derive(Clone, Copy)]
pub enum Refusal<'a> {
    /// The words are none that the program takes.
    Usage,
    /// The file of edits or the flow was not read.
    Reading(InputRefusal<'a>),
    /// The port of the flow is none of the switch.
    NoPort { port: u16 },
    /// The trace was not printed whole.
    Printing(Failed),
}

impl<'a> From<InputRefusal<'a>> for Refusal<'a> {
    ghost from_gives = { λ r e. e ≡ Reading r };

    fn from(refusal: InputRefusal<'a>) -> Self {
        Refusal::Reading(refusal)
    }
}

impl From<Failed> for Refusal<'_> {
    ghost from_gives = { λ f e. e ≡ Printing f };

    fn from(failed: Failed) -> Self {
        Refusal::Printing(failed)
    }
}

// Memory that runs out before anything is printed.
impl From<AllocError> for Refusal<'_> {
    ghost from_gives = { λ _ e. e ≡ Reading OutOfMemory };

    fn from(_: AllocError) -> Self {
        Refusal::Reading(InputRefusal::OutOfMemory)
    }
}

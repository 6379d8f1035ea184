ghost use Rattle.std.specs.Prelude.{◌≡◌};
ghost use Rattle.diff_app.specs.declared.refusal.Refusal.TheVariants.{Reading, Printing};
ghost use Rattle.switch_input.specs.declared.refusals.refusal.InputRefusal.TheVariants.{OutOfMemory};

use edge_io::Failed;
use std::alloc::AllocError;
use switch_input::refusals::InputRefusal;
use table_diff::CompareError;

/// Why no difference is told. Names are those of the words.
#[derive(Clone, Copy)]
pub enum Refusal<'a> {
    /// The words are none that the program takes.
    Usage,
    /// A file of edits was not read, or memory ran out before anything was printed.
    Reading(InputRefusal<'a>),
    /// There are more cubes than are looked into.
    TooManyCubes,
    /// The text was not printed whole.
    Printing(Failed),
}

impl<'a> From<InputRefusal<'a>> for Refusal<'a> {
    ghost from_gives = { λ r e. e ≡ Reading r };

    fn from(refusal: InputRefusal<'a>) -> Self {
        Refusal::Reading(refusal)
    }
}

impl From<Failed> for Refusal<'_> {
    ghost from_gives = { λ f e. e ≡ Printing f };

    fn from(failed: Failed) -> Self {
        Refusal::Printing(failed)
    }
}

impl From<CompareError> for Refusal<'_> {
    ghost use Rattle.diff_app.specs.Refused.{refusal_of};

    ghost from_gives = { λ e r. r ≡ refusal_of e };

    fn from(error: CompareError) -> Self {
        match error {
            CompareError::TooMany => Refusal::TooManyCubes,
            CompareError::OutOfMemory => Refusal::Reading(InputRefusal::OutOfMemory),
        }
    }
}

// Memory that runs out before anything is printed.
impl From<AllocError> for Refusal<'_> {
    ghost from_gives = { λ _ e. e ≡ Reading OutOfMemory };

    fn from(_: AllocError) -> Self {
        Refusal::Reading(InputRefusal::OutOfMemory)
    }
}

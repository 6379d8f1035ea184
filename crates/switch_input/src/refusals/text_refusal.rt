ghost use Rattle.std.specs.Prelude.{◌≡◌};
ghost use Rattle.spec_run.specs.Verdict.{refused_text};
ghost use Rattle.spec_input.specs.declared.fault.FileFault.TheVariants as file;
ghost use Rattle.switch_input.specs.Refused.{fault_view, IfInput, TakesWords, TellsNoFault};

use crate::refusals::refusal::{InputFault, InputRefusal};
use spec_flow_text::TextFault;
use spec_input::FileFault;
use spec_run::Quantity;

/// What becomes of a run whose file of this name has this fault.
pub fn refused_text(name: &str, fault: FileFault) -> InputRefusal<'_>
    ensures input { IfInput result (λ told. fault_view told ≡ refused_text name.now fault) }
    ensures no_fault { TellsNoFault result }
    ensures taken { TakesWords result }
    ensures no_memory { fault ≡ file.OutOfMemory → result ≡ InputRefusal.OutOfMemory }
{
    let limit = match fault {
        FileFault::OutOfMemory => return InputRefusal::OutOfMemory,
        FileFault::Line {
            why: TextFault::TooManyActions,
            ..
        } => Quantity::Actions,
        FileFault::LineTooLong => Quantity::Line,
        FileFault::TooManyEdits => Quantity::Edits,
        FileFault::TooManySyncs => Quantity::Syncs,
        FileFault::TooManySteps => Quantity::Steps,
        FileFault::TooManyMirrors => Quantity::Mirrors,
        fault => return InputRefusal::Input(InputFault::Text { name, fault }),
    };
    InputRefusal::Input(InputFault::Limit(limit))
}

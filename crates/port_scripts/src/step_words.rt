ghost use Rattle.std.specs.Prelude.{◌≡◌};
ghost use Rattle.spec_flow_text.specs.Names as names;
ghost use Rattle.spec_input.specs.Steps.{is_gap, step_words};

use field_text::{Gap, meaning_of};
use spec_input::steps::StepWord;

const STEP_WORDS: [(&str, StepWord); 9] = [
    ("edit", StepWord::Edit),
    ("rx", StepWord::Rx),
    ("snap", StepWord::Snap),
    ("settle", StepWord::Settle),
    ("sweep", StepWord::Sweep),
    ("check", StepWord::Check),
    ("put", StepWord::Put),
    ("swept", StepWord::Swept),
    ("open", StepWord::Open),
];

/// The step that a text names.
pub fn step_word(text: &[u8]) -> Option<StepWord>
    ensures { result ≡ names.meaning_of step_words text.now }
{
    meaning_of(&STEP_WORDS, text)
}

/// Spaces and tabs, which stand between the words of a step.
pub struct Blanks;

impl Gap for Blanks {
    ghost has = { is_gap };

    fn has(byte: u8) -> bool {
        byte == b' ' || byte == b'\t'
    }
}

ghost use Rattle.std.specs.Prelude.{List};
ghost use Rattle.spec_run.specs.Journals.{actions_for};
ghost use Rattle.spec_tools.specs.Lines.{Line};
ghost use Rattle.told_laws.specs.Runs.{IsTreatedAt, OfFrames};
ghost use Rattle.told_laws.specs.Compared.{OfCompared};

/// Of a frame both runs decide what the first line says that has it; and the same, where that tells no difference, or
/// none has it.
pub fn frames_are_treated_as_lines_say()
    ensures { (lines : List Line) → OfCompared lines (λ o n a b.
        OfFrames o (IsTreatedAt o lines (actions_for o a) (actions_for n b))) }
{}

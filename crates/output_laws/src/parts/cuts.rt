ghost use Rattle.std.specs.Prelude.{ℕ, List, All};
ghost use Rattle.spec_case.specs.Run.{Run};
ghost use Rattle.spec_run.specs.Journals.{HasEditsApart};
ghost use Rattle.output_laws.specs.Parts.{parts};

/// Where no block of a run has both edits and frames, no block of its parts has.
pub fn parts_have_edits_apart()
    ensures { (times : List ℕ) (run : Run) → HasEditsApart run → All HasEditsApart (parts times run) }
{}

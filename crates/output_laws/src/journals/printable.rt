ghost use Rattle.std.specs.Prelude.{◌≡◌, List, All};
ghost use Rattle.spec_case.specs.Run.{Run};
ghost use Rattle.spec_board.specs.Texts.{Journal, journals_text};
ghost use Rattle.spec_run.specs.Journals.{AreWhole};
ghost use Rattle.board_steps.specs.Printable.{IsPrintableJournal};
ghost use Rattle.output_laws.specs.Few.{HasFewNumbers};

/// Every number of whole journals is printed with all of its digits.
pub fn whole_journals_are_printable()
    ensures { (run : Run) (journals : List Journal) → HasFewNumbers run → AreWhole run journals
        → All IsPrintableJournal journals }
{}

/// Whole journals of one run that have one text are the same.
pub fn texts_determine_whole_journals()
    ensures { (run : Run) (a b : List Journal) → HasFewNumbers run → AreWhole run a → AreWhole run b
        → journals_text a ≡ journals_text b → a ≡ b }
{}

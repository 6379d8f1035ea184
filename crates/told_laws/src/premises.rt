ghost use Rattle.std.specs.Prelude.{◌≡◌, ℕ, List, []};
ghost use Rattle.spec_xlate.specs.Translation.{switch_of};
ghost use Rattle.spec_case.specs.Run.{Run};
ghost use Rattle.spec_input.specs.Script.{Script};
ghost use Rattle.spec_board.specs.Texts.{Journal};
ghost use Rattle.spec_run.specs.Journals.{HasEditsApart, AreJournals};
ghost use Rattle.spec_tools.specs.DiffVerdict.{rules_of};
ghost use Rattle.told_laws.specs.Runs.{AreByAllEdits, HasEditsFirst, last_switch};

/// The journals of a run decide each frame under the tables that all edits make: without workers, given steps and
/// sync points; and, however many workers there are, where no block has both edits and frames, and none after that of
/// a frame has edits.
pub fn runs_by_all_edits()
    ensures alone { (run : Run) (journals : List Journal) → run.syncs ≡ [] → run.steps ≡ []
        → AreJournals 0 run journals → AreByAllEdits run journals }
    ensures apart { (workers : ℕ) (run : Run) (journals : List Journal) → HasEditsApart run → HasEditsFirst run
        → AreJournals workers run journals → AreByAllEdits run journals }
{}

/// The tables that all edits of a run make are those that are compared of a file with these edits.
pub fn files_make_the_tables()
    ensures { (run : Run) (script : Script) → run.edits ≡ script.edits → run.bundles ≡ script.bundles
        → switch_of (rules_of script) run.ports ≡ last_switch run }
{}

ghost use Rattle.std.specs.Prelude.{List, All};
ghost use Rattle.spec_case.specs.Run.{Run};
ghost use Rattle.spec_board.specs.Texts.{Journal};
ghost use Rattle.spec_run.specs.Journals.{HasEditsApart, IsWhole, AreWhole, IsByLastVersion};

/// Where no block has both edits and frames, a whole journal decides each frame under the last version of its block.
pub fn frames_are_decided_by_last_versions()
    ensures journal { (run : Run) (j : Journal) → HasEditsApart run → IsWhole run j → IsByLastVersion run j }
    ensures journals { (run : Run) (journals : List Journal) → HasEditsApart run → AreWhole run journals
        → All (IsByLastVersion run) journals }
{}

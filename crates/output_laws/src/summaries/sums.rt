ghost use Rattle.std.specs.Prelude.{List, All};
ghost use Rattle.spec_case.specs.Run.{Run};
ghost use Rattle.spec_board.specs.Texts.{Journal};
ghost use Rattle.spec_run.specs.Journals.{HasEditsApart, AreWhole, IsByLastVersion};
ghost use Rattle.output_laws.specs.Sums.{AddUp, SendAlike, SendPlainly};

/// Looks by what they found are as many as the frames, and settles by what they did as many as the looks that missed.
/// So it is of any whole journals, whoever took their steps.
pub fn summaries_add_up()
    ensures { (run : Run) (journals : List Journal) → AreWhole run journals → AddUp run journals }
{}

/// Where two lists of whole journals decide each frame under the last version of its block, the summaries of both
/// tell as many frames sent and as many dropped. Where no block has both edits and frames, any two lists do.
pub fn summaries_send_alike()
    ensures last_versions { (run : Run) (a b : List Journal) → AreWhole run a → AreWhole run b
        → All (IsByLastVersion run) a → All (IsByLastVersion run) b → SendAlike run a b }
    ensures edits_apart { (run : Run) (a b : List Journal) → HasEditsApart run → AreWhole run a → AreWhole run b
        → SendAlike run a b }
{}

/// Then both numbers are those of the run: each frame counts as what the last version of its block sends it as.
pub fn summaries_send_plainly()
    ensures last_versions { (run : Run) (journals : List Journal) → AreWhole run journals
        → All (IsByLastVersion run) journals → SendPlainly run journals }
    ensures edits_apart { (run : Run) (journals : List Journal) → HasEditsApart run → AreWhole run journals
        → SendPlainly run journals }
{}

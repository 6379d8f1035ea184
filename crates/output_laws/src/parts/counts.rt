ghost use Rattle.std.specs.Prelude.{ℕ, List};
ghost use Rattle.spec_case.specs.Run.{Run};
ghost use Rattle.spec_board.specs.Texts.{Journal};
ghost use Rattle.output_laws.specs.Laws.{Part, AreParts, CountsAddUp, SummariesAddUp};

/// The packets and bytes of a rule are the sums of those in the parts. The dumps of the parts are that of the run with
/// other counts, so it is made of them by sums. For this the times of frames don't matter.
pub fn rule_counts_of_parts_add_up()
    ensures { (times : List ℕ) (run : Run) (journals : List Journal) (cut : List Part)
        → AreParts times run journals cut → CountsAddUp run journals cut }
{}

/// The summary of a run tells as many frames, and as many sent and dropped, as the summaries of its parts together. Nor
/// do times matter for this.
pub fn summaries_of_parts_add_up()
    ensures { (times : List ℕ) (run : Run) (journals : List Journal) (cut : List Part)
        → AreParts times run journals cut → SummariesAddUp run journals cut }
{}

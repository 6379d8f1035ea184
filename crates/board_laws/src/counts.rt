ghost use Rattle.std.specs.Prelude.{ℕ, ◌*◌, ◌≤◌, List, length, All};
ghost use Rattle.spec_tables.specs.Bundles.{edits_through};
ghost use Rattle.spec_xlate.specs.Translation.{Switch, action_limit, lookup_limit, pipe};
ghost use Rattle.spec_case.specs.Run.{Run, frames_of};
ghost use Rattle.spec_board.specs.Steps.{Step};
ghost use Rattle.spec_board.specs.Results.{translated};
ghost use Rattle.spec_board.specs.Journals.{IsLegal, after};
ghost use Rattle.spec_board.specs.Decisions.{due_packets, due_bytes};
ghost use Rattle.spec_board.specs.Counts.{IsAccounted};
ghost use Rattle.board_laws.specs.Counts.{HasBoundedCounts, IsUsed};
ghost use Rattle.board_laws.specs.Boards.{OfJournals, HaveAtMost, OfShortFrames, OfNextSteps};

/// What a rule was credited with and what the entries owe it are together what it is due, in packets and in bytes.
pub fn totals_and_debts_are_due()
    ensures { OfJournals (λ run port steps. (rule : ℕ) → IsAccounted run port steps rule) }
{}

/// A translation has at most 128 datapath actions and visits at most 512 rules.
pub fn translations_are_short()
    ensures actions { (sw : Switch) (key : List ℕ) → length (pipe sw key).actions ≤ action_limit }
    ensures visits { (sw : Switch) (key : List ℕ) → length (pipe sw key).visits ≤ lookup_limit }
{}

/// A translation visits only rules that the edits through its version added, so their numbers are from 1 to how many these
/// are.
pub fn translations_visit_added_rules()
    ensures { (run : Run) (v : ℕ) (key : List ℕ)
        → All (λ r. (1 ≤ r) × (r ≤ edits_through run.bundles v)) (translated run v key).visits }
{}

/// What a rule is due is no more than all frames can make it, each visiting it at every lookup.
pub fn dues_are_bounded()
    ensures packets { OfJournals (λ run port steps. (rule : ℕ)
        → due_packets run port steps rule ≤ length (frames_of run port) * lookup_limit) }
    ensures bytes { OfShortFrames (λ run port most steps. (rule : ℕ)
        → due_bytes run port steps rule ≤ length (frames_of run port) * (lookup_limit * most)) }
{}

/// What a rule was credited with and what the entries owe it are together no more than all frames can make it, now and
/// after any step that is legal now.
pub fn counts_are_bounded()
    ensures now { OfShortFrames (λ run port most steps. (rule : ℕ)
        → HasBoundedCounts run port most (after run port steps) rule) }
    ensures next { OfNextSteps (λ run port most steps. (rule : ℕ)
        → HasBoundedCounts run port most (after run port steps) rule) }
{}

/// An entry owes no more than it counted, and counted no more frames than were looked up.
pub fn entries_count_what_they_decided()
    ensures { (run : Run) (port limit most : ℕ) (steps : List Step)
        → HaveAtMost run port most → IsLegal run port limit steps
        → let s = after run port steps in All (IsUsed s.next most) s.entries }
{}

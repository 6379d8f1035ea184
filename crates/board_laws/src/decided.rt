ghost use Rattle.std.specs.Prelude.{◌≡◌, ℕ, ◌+◌, ◌≤◌, length, IsTrue};
ghost use Rattle.spec_case.specs.Run.{frames_of};
ghost use Rattle.spec_board.specs.State.{place_at, is_decided, pending_count};
ghost use Rattle.spec_board.specs.Journals.{IsComplete, after};
ghost use Rattle.spec_board.specs.Decisions.{IsDecided, decisions};
ghost use Rattle.board_laws.specs.Places.{ArePlaces};
ghost use Rattle.board_laws.specs.Boards.{OfBoards, OfOrderedBoards, OfJournals};

/// Each frame that is decided was decided by one step, with the actions of a plain scan under one version, which is in
/// its window.
pub fn frames_are_decided_rightly()
    ensures { OfJournals (λ run port steps. (place : ℕ)
        → IsTrue (is_decided (place_at place (after run port steps)))
        → IsDecided run port steps place) }
{}

/// A complete journal decides each frame of the trace so.
pub fn complete_journals_decide_all()
    ensures { OfJournals (λ run port steps. IsComplete run port steps
        → (place : ℕ) → 1 ≤ place → place ≤ length (frames_of run port)
        → IsDecided run port steps place) }
{}

/// Each frame that was looked up is decided or pending; and no more are than the trace has.
pub fn frames_looked_up_are_decided_or_pending()
    ensures either { OfJournals (λ run port steps.
        let s = after run port steps in
        length (decisions run port steps) + pending_count s + 1 ≡ s.next) }
    ensures within { OfOrderedBoards (λ run port limit s.
        s.next ≤ length (frames_of run port) + 1) }
{}

/// There is a place for each frame; those from the next one on wait, and pending ones are of the board's block.
pub fn places_wait_in_order()
    ensures { OfBoards (λ run port limit s. ArePlaces run port s) }
{}

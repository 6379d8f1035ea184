ghost use Rattle.std.specs.Prelude.{ℕ, ◌<◌, All, AllPairs, IsSome};
ghost use Rattle.spec_board.specs.Results.{entry_of};
ghost use Rattle.board_laws.specs.Versions.{HasVersionsInOrder, IsRecent};
ghost use Rattle.board_laws.specs.Boards.{OfBoards, OfOrderedBoards};

/// The versions of a board stand in order, within those of its block; and so do those of its entries.
pub fn versions_stand_in_order()
    ensures board { OfOrderedBoards (λ run port limit s. HasVersionsInOrder run s) }
    ensures entries { OfOrderedBoards (λ run port limit s. All (IsRecent s) s.entries) }
{}

/// What a sweep has yet to put are live entries, by rising numbers.
pub fn sweeps_list_live_entries()
    ensures rising { OfBoards (λ run port limit s. AllPairs (λ (m n : ℕ). m < n) s.listed) }
    ensures live { OfBoards (λ run port limit s.
        All (λ n. IsSome (entry_of n s.entries)) s.listed) }
{}

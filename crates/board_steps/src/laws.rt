ghost use Rattle.std.specs.Prelude.{◌≡◌, List, All};
ghost use Rattle.spec_board.specs.Texts.{Journal, journals_text};
ghost use Rattle.board_steps.specs.Printable.{IsPrintableJournal};

/// Different journals have different texts, as long as their numbers have at most 64 decimal digits.
pub fn journals_text_is_one_to_one()
    ensures { (a b : List Journal) → All IsPrintableJournal a → All IsPrintableJournal b
        → journals_text a ≡ journals_text b → a ≡ b }
{}

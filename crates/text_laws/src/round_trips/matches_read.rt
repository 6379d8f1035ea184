ghost use Rattle.std.specs.Prelude.{◌≡◌, ℕ, List, Ok, IsTrue};
ghost use Rattle.spec_tables.specs.declared.edit_word.EditWord.{EditWord};
ghost use Rattle.spec_flow_text.specs.Matches.{MatchText, read_match};
ghost use Rattle.text_laws.specs.Texts.{is_plain};
ghost use Rattle.text_laws.specs.SpelledMatches.{IsSpellable};
ghost use Rattle.text_laws.specs.ReadBack.{MatchReadsBack, MatchReadsBackBefore};

use crate::matches::printed_match_reads_back;
use crate::values::{addresses_are_within, masks_are_within, numbers_are_within};

/// A match that is read can be spelled, whatever else stands on its line and whatever was dropped for want of what it
/// needs.
pub fn read_match_can_be_spelled()
    ensures { (word : EditWord) (at : ℕ) (line : List ℕ) (t : MatchText)
        → read_match word at line ≡ Ok t → IsSpellable t.matching }
{
    numbers_are_within();
    addresses_are_within();
    masks_are_within();
}

/// So what is printed of a match that was read reads back as that match, whichever word it was read after.
pub fn read_match_reads_back()
    ensures alone { (word : EditWord) (at : ℕ) (line : List ℕ) (t : MatchText)
        → read_match word at line ≡ Ok t → MatchReadsBack t.matching }
    ensures before_actions { (word : EditWord) (at : ℕ) (line list : List ℕ) (t : MatchText)
        → read_match word at line ≡ Ok t → IsTrue (is_plain list)
        → MatchReadsBackBefore list t.matching }
{
    read_match_can_be_spelled();
    printed_match_reads_back();
}

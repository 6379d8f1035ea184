ghost use Rattle.std.specs.Prelude.{◌≡◌, is_ok, Ok};
ghost use Rattle.spec_tables.specs.declared.edit_word.EditWord.{EditWord};
ghost use Rattle.spec_flow_text.specs.Matches.{MatchText, read_match};
ghost use Rattle.text_laws.specs.ReadTexts.{OfSwappedItems};

use crate::values::{addresses_are_within, masks_are_within, numbers_are_within};

/// The order of items counts for nothing: a line in which two of them that stand side by side change places is read alike,
/// its match and its table, priority and cookie, and the place of its list of actions. The list itself is no such item.
///
/// Where one order is a fault so is the other, and the faults may differ: each is that of its first bad item, at the
/// column where that stands.
pub fn order_of_items_changes_nothing()
    ensures alike { (word : EditWord) → OfSwappedItems (λ at line swapped.
        (m : MatchText) → read_match word at line ≡ Ok m → read_match word at swapped ≡ Ok m) }
    ensures faults { (word : EditWord) → OfSwappedItems (λ at line swapped.
        is_ok (read_match word at line) ≡ is_ok (read_match word at swapped)) }
{
    numbers_are_within();
    addresses_are_within();
    masks_are_within();
}

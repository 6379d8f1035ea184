ghost use Rattle.std.specs.Prelude.{◌≡◌, ℕ, List, Ok, IsTrue};
ghost use Rattle.spec_actions.specs.declared.action.OfAction.{OfAction};
ghost use Rattle.spec_flow_text.specs.Actions.{read_actions};
ghost use Rattle.text_laws.specs.Spelled.{are_spellable, are_respellable};
ghost use Rattle.text_laws.specs.ReadBack.{ActionsReadBack};

use crate::printed_actions_read_back;
use crate::values::{addresses_are_within, masks_are_within, numbers_are_within};

/// A list of actions that is read can be spelled where each of its writes can: one whose bits are all of its field, or
/// which a mask can name. A `load` to some bits of a field that takes no mask is read, and no value spells it.
pub fn read_actions_can_be_spelled()
    ensures { (at : ℕ) (line : List ℕ) (actions : List OfAction)
        → read_actions at line ≡ Ok actions → IsTrue (are_respellable actions)
        → IsTrue (are_spellable actions) }
{
    numbers_are_within();
    addresses_are_within();
    masks_are_within();
}

/// So what is printed of such a list reads back as that list.
pub fn read_actions_read_back()
    ensures { (at : ℕ) (line : List ℕ) (actions : List OfAction)
        → read_actions at line ≡ Ok actions → IsTrue (are_respellable actions)
        → ActionsReadBack actions }
{
    read_actions_can_be_spelled();
    printed_actions_read_back();
}

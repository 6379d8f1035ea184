ghost use Rattle.std.specs.Prelude.{List, IsTrue};
ghost use Rattle.spec_keys.specs.Keys.{IsKey};
ghost use Rattle.spec_actions.specs.declared.action.OfAction.{OfAction};
ghost use Rattle.spec_actions.specs.Sound.{AreSound};
ghost use Rattle.spec_tables.specs.Rules.{Match};
ghost use Rattle.spec_flow_text.specs.Printed.{match_printed, actions_printed};
ghost use Rattle.text_laws.specs.Texts.{is_plain};

use crate::values::{
    addresses_have_value_characters, masks_have_value_characters, numbers_have_value_characters,
};

/// What is printed of a sound list of actions is part of one line: it has visible ASCII alone, without white space and
/// without a number sign, which would begin a comment.
pub fn printed_actions_are_one_line()
    ensures { (actions : List OfAction) → AreSound actions
        → IsTrue (is_plain (actions_printed actions)) }
{
    numbers_have_value_characters();
    addresses_have_value_characters();
    masks_have_value_characters();
}

/// So is what is printed of a match whose numbers are within the widths of their fields.
pub fn printed_match_is_one_line()
    ensures { (m : Match) → IsKey m.key → IsKey m.mask → IsTrue (is_plain (match_printed m)) }
{
    numbers_have_value_characters();
    addresses_have_value_characters();
    masks_have_value_characters();
}

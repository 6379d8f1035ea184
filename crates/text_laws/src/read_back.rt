ghost use Rattle.std.specs.Prelude.{◌≡◌, ℕ, Bool, List, ◌++◌, length, Ok, IsTrue};
ghost use Rattle.spec_actions.specs.declared.action.OfAction.{OfAction};
ghost use Rattle.spec_flow_text.specs.Matches.{uncommented};
ghost use Rattle.spec_flow_text.specs.Actions.{read_actions};
ghost use Rattle.spec_flow_text.specs.Printed.{actions_printed};
ghost use Rattle.text_laws.specs.Spelled.{is_spellable, is_goto, are_spellable};
ghost use Rattle.text_laws.specs.ReadBack.{ActionReadsBack};

use crate::values::{
    addresses_have_value_characters, decimal_reads_back, hexadecimal_reads_back,
    hexadecimal4_reads_back, ipv4_mask_reads_back, ipv4_reads_back, ipv6_mask_reads_back,
    ipv6_reads_back, mac_reads_back, masks_have_value_characters, numbers_have_value_characters,
};

/// A printed action reads back: as the one item of a list, or among others, where a `goto_table` has to be the last.
pub fn printed_action_reads_back()
    ensures { (only last : Bool) (action : OfAction)
        → IsTrue (is_spellable action) → (IsTrue (is_goto action) → IsTrue last)
        → ActionReadsBack only last action }
{
    numbers_have_value_characters();
    addresses_have_value_characters();
    masks_have_value_characters();
    decimal_reads_back();
    hexadecimal_reads_back();
    hexadecimal4_reads_back();
    mac_reads_back();
    ipv4_reads_back();
    ipv6_reads_back();
    ipv4_mask_reads_back();
    ipv6_mask_reads_back();
}

/// A printed list of actions that can be spelled reads back, alone and behind the front of a line.
pub fn printed_actions_read_back()
    ensures alone { (actions : List OfAction)
        → IsTrue (are_spellable actions) → read_actions 0 (actions_printed actions) ≡ Ok actions }
    ensures behind { (front : List ℕ) (actions : List OfAction)
        → uncommented front ≡ front
        → IsTrue (are_spellable actions)
        → read_actions (length front) (front ++ actions_printed actions) ≡ Ok actions }
{
    numbers_have_value_characters();
    addresses_have_value_characters();
    masks_have_value_characters();
    decimal_reads_back();
    hexadecimal_reads_back();
    hexadecimal4_reads_back();
    mac_reads_back();
    ipv4_reads_back();
    ipv6_reads_back();
    ipv4_mask_reads_back();
    ipv6_mask_reads_back();
}

ghost use Rattle.std.specs.Prelude.{List, IsTrue};
ghost use Rattle.spec_actions.specs.declared.action.OfAction.{OfAction};
ghost use Rattle.spec_tables.specs.Rules.{Match};
ghost use Rattle.text_laws.specs.Spelled.{are_spellable};
ghost use Rattle.text_laws.specs.SpelledMatches.{IsSpellable};
ghost use Rattle.text_laws.specs.ReadBack.{FlowReadsBack, DeletionReadsBack};

use crate::matches::printed_match_reads_back;
use crate::values::{
    addresses_have_value_characters, decimal_reads_back, hexadecimal_reads_back,
    hexadecimal4_reads_back, ipv4_mask_reads_back, ipv4_reads_back, ipv6_mask_reads_back,
    ipv6_reads_back, mac_reads_back, masks_have_value_characters, numbers_have_value_characters,
};
use crate::{printed_actions_are_one_line, printed_actions_read_back};

/// What is printed of a match and of a list of actions that can be spelled, with `,actions=` between them, reads back as
/// the flow of both; after a word that deletes, the match alone does.
pub fn printed_flow_reads_back()
    ensures flow { (m : Match) (actions : List OfAction)
        → IsSpellable m → IsTrue (are_spellable actions) → FlowReadsBack m actions }
    ensures alone { (m : Match) → IsSpellable m → DeletionReadsBack m }
{
    printed_match_reads_back();
    printed_actions_are_one_line();
    printed_actions_read_back();
    numbers_have_value_characters();
    addresses_have_value_characters();
    masks_have_value_characters();
    decimal_reads_back();
    hexadecimal_reads_back();
    hexadecimal4_reads_back();
    mac_reads_back();
    ipv4_reads_back();
    ipv6_reads_back();
    ipv4_mask_reads_back();
    ipv6_mask_reads_back();
}

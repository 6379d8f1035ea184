ghost use Rattle.std.specs.Prelude.{ℕ, List, IsTrue};
ghost use Rattle.spec_tables.specs.Rules.{Match};
ghost use Rattle.text_laws.specs.Texts.{is_plain};
ghost use Rattle.text_laws.specs.SpelledMatches.{IsSpellable};
ghost use Rattle.text_laws.specs.ReadBack.{MatchReadsBack, MatchReadsBackBefore};

use crate::values::{
    addresses_have_value_characters, decimal_reads_back, hexadecimal_reads_back,
    hexadecimal4_reads_back, ipv4_mask_reads_back, ipv4_reads_back, ipv6_mask_reads_back,
    ipv6_reads_back, mac_reads_back, masks_have_value_characters, numbers_have_value_characters,
};

/// What is printed of a match that can be spelled reads back as that match, without a table, a cookie or a priority that
/// isn't the default: by itself after a word that deletes, and before a list of actions after another word.
pub fn printed_match_reads_back()
    ensures alone { (m : Match) → IsSpellable m → MatchReadsBack m }
    ensures before_actions { (m : Match) (list : List ℕ)
        → IsSpellable m → IsTrue (is_plain list) → MatchReadsBackBefore list m }
{
    numbers_have_value_characters();
    addresses_have_value_characters();
    masks_have_value_characters();
    decimal_reads_back();
    hexadecimal_reads_back();
    hexadecimal4_reads_back();
    mac_reads_back();
    ipv4_reads_back();
    ipv6_reads_back();
    ipv4_mask_reads_back();
    ipv6_mask_reads_back();
}

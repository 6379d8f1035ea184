ghost use Rattle.std.specs.Prelude.{◌≡◌, List, length, Ok};
ghost use Rattle.spec_tables.specs.Bundles.{version};
ghost use Rattle.spec_case.specs.Run.{Run};
ghost use Rattle.spec_board.specs.Texts.{Journal};
ghost use Rattle.spec_input.specs.Script.{script_of};
ghost use Rattle.spec_run.specs.Rules.{rules_text};
ghost use Rattle.output_laws.specs.Dumps.{IsReadableDump, dumped_rules, dumped_edits, renumbered};

use crate::rule_text::lines::printed_rules_read_back;
use text_laws::printed_actions_are_one_line;
use text_laws::round_trips::{read_actions_can_be_spelled, read_match_can_be_spelled};
use text_laws::values::{
    addresses_have_value_characters, decimal_reads_back, hexadecimal_reads_back,
    hexadecimal4_reads_back, ipv4_mask_reads_back, ipv4_reads_back, ipv6_mask_reads_back,
    ipv6_reads_back, mac_reads_back, masks_have_value_characters, numbers_are_within,
    numbers_have_value_characters,
};

/// The dump of the rules of a run is a file of edits: one for each rule that is live in the last version, in the order of the
/// dump. Together they make these rules and no others, numbered in that order.
pub fn dumped_rules_read_back()
    ensures script { (run : Run) (journals : List Journal) → IsReadableDump run journals
        → script_of (rules_text run journals) ≡ Ok (dumped_edits run) }
    ensures rules { (run : Run) → let s = dumped_edits run in
        version s.edits s.bundles (length s.bundles) ≡ renumbered 1 (dumped_rules run) }
{
    printed_rules_read_back();
    printed_actions_are_one_line();
    read_match_can_be_spelled();
    read_actions_can_be_spelled();
    numbers_are_within();
    numbers_have_value_characters();
    addresses_have_value_characters();
    masks_have_value_characters();
    decimal_reads_back();
    hexadecimal_reads_back();
    hexadecimal4_reads_back();
    mac_reads_back();
    ipv4_reads_back();
    ipv6_reads_back();
    ipv4_mask_reads_back();
    ipv6_mask_reads_back();
}

ghost use Rattle.std.specs.Prelude.{◌≡◌, ℕ, List, All, Ok};
ghost use Rattle.spec_tables.specs.Rules.{Rule};
ghost use Rattle.spec_tables.specs.Edits.{Edit, rule_of, after_edits};
ghost use Rattle.spec_flow_text.specs.Lines.{edit_in};
ghost use Rattle.spec_input.specs.Script.{Script, script_of};
ghost use Rattle.spec_board.specs.Texts.{line_of};
ghost use Rattle.spec_run.specs.declared.rule_counts.RuleCounts.{RuleCounts};
ghost use Rattle.spec_run.specs.Rules.{rule_line_with};
ghost use Rattle.output_laws.specs.Lines.{rule_text, added, IsWritable, WasRead, ReadsBack, AreCounts};

use text_laws::round_trips::{read_actions_can_be_spelled, read_match_can_be_spelled};
use text_laws::values::{
    addresses_have_value_characters, decimal_reads_back, hexadecimal_reads_back,
    hexadecimal4_reads_back, ipv4_mask_reads_back, ipv4_reads_back, ipv6_mask_reads_back,
    ipv6_reads_back, mac_reads_back, masks_have_value_characters, numbers_are_within,
    numbers_have_value_characters,
};
use text_laws::{
    printed_actions_are_one_line, printed_actions_read_back, separators_at_the_end_change_nothing,
};

/// The line of a rule in the dump of rules reads back as the edit that adds it, whatever its counts are; and that edit adds
/// the rule, under the number that it has then.
pub fn printed_rules_read_back()
    ensures line { (counts : RuleCounts) (r : Rule) → rule_line_with counts r ≡ line_of (rule_text counts r) }
    ensures back { (counts : RuleCounts) (r : Rule) → AreCounts counts → IsWritable r
        → edit_in (rule_text counts r) ≡ Ok (added r) }
    ensures adds { (number : ℕ) (r : Rule) → rule_of number (added r) ≡ record r { number = number } }
{
    printed_actions_are_one_line();
    printed_actions_read_back();
    separators_at_the_end_change_nothing();
    numbers_have_value_characters();
    addresses_have_value_characters();
    masks_have_value_characters();
    decimal_reads_back();
    hexadecimal_reads_back();
    hexadecimal4_reads_back();
    mac_reads_back();
    ipv4_reads_back();
    ipv6_reads_back();
    ipv4_mask_reads_back();
    ipv6_mask_reads_back();
}

/// So do those of all rules that edits make which were read, where their actions can be spelled again.
pub fn read_rules_read_back()
    ensures { (edits : List Edit) (n : ℕ) → All WasRead edits → All ReadsBack (after_edits edits n) }
{
    read_match_can_be_spelled();
    read_actions_can_be_spelled();
    numbers_are_within();
    printed_rules_read_back();
}

/// The edits of a file that is read are such.
pub fn edits_of_files_were_read()
    ensures { (bytes : List ℕ) (s : Script) → script_of bytes ≡ Ok s → All WasRead s.edits }
{}

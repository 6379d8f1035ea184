ghost use Rattle.std.specs.Prelude.{◌≡◌, ℕ, List, Ok, IsTrue};
ghost use Rattle.spec_tables.specs.Edits.{Edit};
ghost use Rattle.spec_flow_text.specs.Lines.{edit_in};
ghost use Rattle.text_laws.specs.Spelled.{are_respellable};
ghost use Rattle.text_laws.specs.ReadBack.{FlowReadsBack, DeletionReadsBack};

use crate::matches::printed_flow_reads_back;
use crate::round_trips::{read_actions_can_be_spelled, read_match_can_be_spelled};

/// What is printed of the match and of the actions of an edit that was read reads back as that flow, after another word
/// than a deleting one; after a deleting word what is printed of the match does. Table, cookie and priority are no part of
/// the print.
pub fn read_edit_reads_back()
    ensures flow { (line : List ℕ) (e : Edit)
        → edit_in line ≡ Ok e → IsTrue (are_respellable e.actions)
        → FlowReadsBack e.matching e.actions }
    ensures alone { (line : List ℕ) (e : Edit) → edit_in line ≡ Ok e → DeletionReadsBack e.matching }
{
    read_match_can_be_spelled();
    read_actions_can_be_spelled();
    printed_flow_reads_back();
}

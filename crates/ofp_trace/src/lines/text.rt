ghost use Rattle.std.specs.Prelude.{◌++◌, All};
ghost use Rattle.spec_board.specs.Texts.{line_of};
ghost use Rattle.spec_flow_text.specs.DpTextPrinted.{dp_actions_printed};
ghost use Rattle.spec_flow_text.specs.Within.{AreWithinFields};
ghost use Rattle.ovs_fields.specs.Packed.{numbers, bits};
ghost use Rattle.text_numbers.specs.Added.{Adds};
ghost use Rattle.dump_lines.specs.Live.{IsOfEdits, live_in};
ghost use Rattle.spec_tools.specs.TraceTexts.{key_text, flow_line, last_line, megaflow_line, datapath_line, told_text};
ghost use Rattle.ofp_trace.specs.Winners.{HasLiveWinner};
ghost use Rattle.ofp_trace.specs.Pieces.{ended_text};

use crate::Traced;
use crate::lines::keys::print_key;
use crate::lines::lookups::print_lookups;
use action_text::print_dp_actions;
use dump_lines::megaflows::print_megaflow_match;
use ovs_fields::{Key, Mask};
use rule_tables::VersionedRules;
use spec_actions::DpAction;
use std::alloc::AllocError;
use text_numbers::print_word;

// A key after a word, as a line.
fn print_key_line(out: &mut String, word: &str, key: &Key) -> Result<(), AllocError>
    ensures { Adds out.old out.new (line_of (word.now ++ key_text (numbers key.now))) result }
{
    print_word(out, word)?;
    print_key(out, key)?;
    print_word(out, "\n")
}

fn print_megaflow_line(out: &mut String, key: &Key, mask: &Mask) -> Result<(), AllocError>
    ensures { Adds out.old out.new (megaflow_line (numbers key.now) (bits mask.now)) result }
{
    print_word(out, "megaflow: ")?;
    print_megaflow_match(out, key, mask)?;
    print_word(out, "\n")
}

fn print_datapath_line(out: &mut String, actions: &[DpAction]) -> Result<(), AllocError>
    requires { AreWithinFields actions.now }
    ensures { Adds out.old out.new (datapath_line actions.now) result }
{
    print_word(out, "datapath: ")?;
    print_dp_actions(actions, out)?;
    print_word(out, "\n")
}

// The last three lines.
fn print_end(out: &mut String, key: &Key, traced: &Traced) -> Result<(), AllocError>
    requires { AreWithinFields traced.now.translated.translation.actions }
    ensures { Adds out.old out.new
        (ended_text (numbers key.now) (numbers traced.now.last) traced.now.translated.mask
        traced.now.translated.translation.actions) result }
{
    print_key_line(out, "last: ", &traced.last)?;
    print_megaflow_line(out, key, traced.translated.mask())?;
    print_datapath_line(out, traced.translated.actions().as_slice())
}

/// Adds the text of what was traced of a packet of this key, under the last version of these rules.
///
/// The only error is out of memory, and then the string has what it had, and perhaps a part of the text.
pub fn print_trace(
    out: &mut String,
    rules: &VersionedRules,
    key: &Key,
    traced: &Traced,
) -> Result<(), AllocError>
    requires of_edits { IsOfEdits rules.now }
    requires live { All (HasLiveWinner (live_in rules.now)) traced.now.path.items }
    requires within { AreWithinFields traced.now.translated.translation.actions }
    ensures { let t = traced.now in Adds out.old out.new
        (told_text (live_in rules.now) (numbers key.now) t.path.items (numbers t.last)
        t.translated.mask t.translated.translation.actions) result }
{
    print_key_line(out, "flow: ", key)?;
    print_lookups(out, rules, &traced.path)?;
    print_end(out, key, traced)
}

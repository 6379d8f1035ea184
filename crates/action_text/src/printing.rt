ghost use Rattle.std.specs.Prelude.{◌++◌, IsTrue};
ghost use Rattle.std.specs.Fmt.{decimal};
ghost use Rattle.spec_actions.specs.Sound.{is_sound, AreSound};
ghost use Rattle.spec_flow_text.specs.Printed as printed;
ghost use Rattle.text_numbers.specs.Added.{Adds};
ghost use Rattle.field_text.specs.Views.{Fits};

use field_text::{Bits, ItemPrinter, name_of, print_list, print_value, within_mask};
use spec_actions::{NamedField, OfAction, Slice};
use std::alloc::AllocError;
use text_numbers::{print_decimal, print_hexadecimal4, print_word};

fn print_number_after(out: &mut String, start: &str, number: u128) -> Result<(), AllocError>
    ensures { Adds out.old out.new (start.now ++ decimal number) result }
{
    print_word(out, start)?;
    print_decimal(out, number)
}

fn print_slice(out: &mut String, slice: Slice) -> Result<(), AllocError>
    ensures { Adds out.old out.new (printed.slice_text slice) result }
{
    print_word(out, name_of(slice.name))?;
    print_number_after(out, "[", u128::from(slice.low))?;
    print_number_after(out, "..", u128::from(slice.high))?;
    print_word(out, "]")
}

fn print_slice_after(out: &mut String, start: &str, slice: Slice) -> Result<(), AllocError>
    ensures { Adds out.old out.new (start.now ++ printed.slice_text slice) result }
{
    print_word(out, start)?;
    print_slice(out, slice)
}

fn print_resubmit(out: &mut String, table: u8) -> Result<(), AllocError>
    ensures { Adds out.old out.new (printed.action_text (OfAction.Resubmit table)) result }
{
    print_number_after(out, "resubmit(,", u128::from(table))?;
    print_word(out, ")")
}

fn print_set(out: &mut String, name: NamedField, bits: Bits) -> Result<(), AllocError>
    requires { Fits name bits }
    ensures { Adds out.old out.new
        (printed.action_text (OfAction.Set name bits.value bits.mask)) result }
{
    print_word(out, "set_field:")?;
    print_value(out, name, within_mask(bits))?;
    print_word(out, "->")?;
    print_word(out, name_of(name))
}

fn print_move(out: &mut String, from: Slice, to: Slice) -> Result<(), AllocError>
    ensures { Adds out.old out.new (printed.action_text (OfAction.Move from to)) result }
{
    print_slice_after(out, "move:", from)?;
    print_slice_after(out, "->", to)
}

fn print_push(out: &mut String, tpid: u16) -> Result<(), AllocError>
    ensures { Adds out.old out.new (printed.action_text (OfAction.PushVlan tpid)) result }
{
    print_word(out, "push_vlan:")?;
    print_hexadecimal4(out, tpid)
}

#[tactic(auto, using(crate::proofs::Loads::set_fits))]
fn print_action(out: &mut String, action: OfAction) -> Result<(), AllocError>
    requires { IsTrue (is_sound action) }
    ensures { Adds out.old out.new (printed.action_text action) result }
{
    match action {
        OfAction::Output(port) => print_number_after(out, "output:", u128::from(port)),
        OfAction::OutputField(slice) => print_slice_after(out, "output:", slice),
        OfAction::InPort => print_word(out, "in_port"),
        OfAction::All => print_word(out, "all"),
        OfAction::Flood => print_word(out, "flood"),
        OfAction::Resubmit(table) => print_resubmit(out, table),
        OfAction::Goto(table) => print_number_after(out, "goto_table:", u128::from(table)),
        OfAction::Set { name, value, mask } => print_set(out, name, Bits { value, mask }),
        OfAction::Move { from, to } => print_move(out, from, to),
        OfAction::DecTtl => print_word(out, "dec_ttl"),
        OfAction::PushVlan(tpid) => print_push(out, tpid),
        OfAction::PopVlan => print_word(out, "pop_vlan"),
        OfAction::SetVid(vid) => print_number_after(out, "mod_vlan_vid:", u128::from(vid)),
        OfAction::SetPcp(pcp) => print_number_after(out, "mod_vlan_pcp:", u128::from(pcp)),
    }
}

// The kind of items that actions are.
struct ActionPrinter;

impl ItemPrinter for ActionPrinter {
    type Item = OfAction;

    ghost text = { printed.action_text };

    ghost is_printable = { is_sound };

    fn print_item(action: &OfAction, out: &mut String) -> Result<(), AllocError> {
        print_action(out, *action)
    }
}

/// Adds the text of a list of actions: the actions with commas between them, or `drop`.
///
/// Where there is no memory, the string has what it had, and perhaps a part of the text.
#[tactic(auto, unfolding(spec_flow_text::specs::Printed::actions_printed))]
pub fn print_actions(list: &[OfAction], out: &mut String) -> Result<(), AllocError>
    requires { AreSound list.now }
    ensures { Adds out.old out.new (printed.actions_printed list.now) result }
{
    print_list::<ActionPrinter>(list, out)
}

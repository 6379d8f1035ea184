ghost use Rattle.std.specs.Prelude.{◌≡◌, IsTrue};
ghost use Rattle.text_numbers.specs.Added.{Adds};
ghost use Rattle.field_text.specs.Views.{FitsWidth};
ghost use Rattle.spec_flow_text.specs.DpTextPrinted as printed;
ghost use Rattle.spec_flow_text.specs.Within.{is_within_field, AreWithinFields};

use field_text::{Bits, ItemPrinter, name_of, own_name, print_list, print_value, within_mask};
use ovs_fields::FieldId;
use spec_actions::DpAction;
use std::alloc::AllocError;
use text_numbers::{print_decimal, print_hexadecimal4, print_word};

// The parts of a tag's content (IEEE 802.1Q, 9.6): the priority in the most significant bits, the VLAN identifier in the
// least significant ones.
const PRIORITY_WIDTH: u32 = 3;

const IDENTIFIER_WIDTH: u32 = 12;

fn priority_of(tci: u16) -> u16
    ensures { result ≡ printed.priority_of tci }
{
    tci >> (u16::BITS - PRIORITY_WIDTH)
}

fn identifier_of(tci: u16) -> u16
    ensures { result ≡ printed.identifier_of tci }
{
    tci % (1 << IDENTIFIER_WIDTH)
}

// The type of a customer's tag (IEEE 802.1Q, table 9-1).
const CUSTOMER_TAG: u16 = 0x8100;

// The type of a tag, where it isn't a customer's.
fn print_tag_type(out: &mut String, tpid: u16) -> Result<(), AllocError>
    ensures { Adds out.old out.new (printed.tag_type_text tpid) result }
{
    if tpid == CUSTOMER_TAG {
        return Ok(());
    }
    print_word(out, "tpid=")?;
    print_hexadecimal4(out, tpid)?;
    print_word(out, ",")
}

fn print_push(out: &mut String, tpid: u16, tci: u16) -> Result<(), AllocError>
    ensures { Adds out.old out.new (printed.dp_action_text (DpAction.PushVlan tpid tci)) result }
{
    print_word(out, "push_vlan(")?;
    print_tag_type(out, tpid)?;
    print_word(out, "vid=")?;
    print_decimal(out, u128::from(identifier_of(tci)))?;
    print_word(out, ",pcp=")?;
    print_decimal(out, u128::from(priority_of(tci)))?;
    print_word(out, ")")
}

fn print_set(out: &mut String, field: FieldId, bits: Bits) -> Result<(), AllocError>
    requires { FitsWidth field bits }
    ensures { Adds out.old out.new
        (printed.dp_action_text (DpAction.Set field bits.value bits.mask)) result }
{
    let name = own_name(field);
    print_word(out, "set(")?;
    print_word(out, name_of(name))?;
    print_word(out, "=")?;
    print_value(out, name, within_mask(bits))?;
    print_word(out, ")")
}

#[tactic(auto, using(crate::proofs::Lists::set_fits))]
fn print_action(out: &mut String, action: DpAction) -> Result<(), AllocError>
    requires { IsTrue (is_within_field action) }
    ensures { Adds out.old out.new (printed.dp_action_text action) result }
{
    match action {
        DpAction::Output(port) => print_decimal(out, u128::from(port)),
        DpAction::PopVlan => print_word(out, "pop_vlan"),
        DpAction::PushVlan { tpid, tci } => print_push(out, tpid, tci),
        DpAction::Set { field, value, mask } => print_set(out, field, Bits { value, mask }),
    }
}

// The kind of items that datapath actions are.
struct DpActionPrinter;

impl ItemPrinter for DpActionPrinter {
    type Item = DpAction;

    ghost text = { printed.dp_action_text };

    ghost is_printable = { is_within_field };

    fn print_item(action: &DpAction, out: &mut String) -> Result<(), AllocError> {
        print_action(out, *action)
    }
}

/// Adds the text of a list of datapath actions (ovs-actions(7)): the actions with commas between them, or `drop`.
///
/// The only error is out of memory, and then the string has what it had, and perhaps a part of the text.
#[tactic(auto, unfolding(spec_flow_text::specs::DpTextPrinted::dp_actions_printed))]
pub fn print_dp_actions(list: &[DpAction], out: &mut String) -> Result<(), AllocError>
    requires { AreWithinFields list.now }
    ensures { Adds out.old out.new (printed.dp_actions_printed list.now) result }
{
    print_list::<DpActionPrinter>(list, out)
}

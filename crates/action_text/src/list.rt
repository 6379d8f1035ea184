ghost use Rattle.std.specs.Prelude.{◌≡◌, IfOk, IfSome, IsTrue};
ghost use Rattle.spec_actions.specs.Sound.{is_sound};
ghost use Rattle.spec_flow_text.specs.Actions.{value_or_fault, port_of, one, drop_item, goto_item, actions_named, closed_item, is_closed, actions_of_item};
ghost use Rattle.field_text.specs.WordViews.{word_view};
ghost use Rattle.action_text.specs.ActionsRead.{actions_read, names_written, vid_of, pcp_of};

use crate::ports::{number_argument, output, port_of, push_vlan};
use crate::resubmit::{LAST_TABLE, resubmit};
use crate::words::{alone, is_alone, name_in};
use crate::writes::{load, modify, move_bits, set_field};
use field_text::{ActionName, TextFault, Word, action_named};
use spec_actions::OfAction;

// The greatest VLAN identifier, and the greatest VLAN priority.
const LAST_VID: u128 = 4095;

const LAST_PCP: u128 = 7;

fn one(action: Result<OfAction, TextFault>) -> Result<Option<OfAction>, TextFault>
    requires { IfOk action (λ a. IsTrue (is_sound a)) }
    ensures value { actions_read result ≡ one action }
    ensures sound { IfOk result (λ o. IfSome o (λ a. IsTrue (is_sound a))) }
{
    let action = action?;
    Ok(Some(action))
}

// The output of an item that is the number of a port.
fn output_number(item: Word<'_>) -> Result<OfAction, TextFault>
    ensures value { result ≡ value_or_fault (word_view item.entry) (port_of item.entry.text.now) }
    ensures sound { IfOk result (λ a. IsTrue (is_sound a)) }
{
    match port_of(item.text) {
        Some(action) => Ok(action),
        None => Err(TextFault::BadValue { col: item.column() }),
    }
}

// `drop` is the list without actions, and stands alone.
#[tactic(auto, unfolding(spec_flow_text::specs::Actions::drop_item))]
fn drop_item(only: bool, item: Word<'_>) -> Result<Option<OfAction>, TextFault>
    ensures value { actions_read result ≡ drop_item only (word_view item.entry) }
    ensures sound { IfOk result (λ o. IfSome o (λ a. IsTrue (is_sound a))) }
{
    if only && is_alone(item) {
        Ok(None)
    } else {
        Err(TextFault::Syntax { col: item.column() })
    }
}

// Nothing stands after `goto_table`.
#[tactic(auto, unfolding(spec_flow_text::specs::Actions::goto_item))]
fn goto_item(last: bool, item: Word<'_>) -> Result<OfAction, TextFault>
    ensures value { result ≡ goto_item last (word_view item.entry) }
    ensures sound { IfOk result (λ a. IsTrue (is_sound a)) }
{
    let table = number_argument(item, LAST_TABLE)?;
    if last {
        Ok(OfAction::Goto(table as u8))
    } else {
        Err(TextFault::Syntax { col: item.column() })
    }
}

fn set_vid(item: Word<'_>) -> Result<OfAction, TextFault>
    ensures value { result ≡ vid_of (word_view item.entry) }
    ensures sound { IfOk result (λ a. IsTrue (is_sound a)) }
{
    let vid = number_argument(item, LAST_VID)?;
    Ok(OfAction::SetVid(vid as u16))
}

fn set_pcp(item: Word<'_>) -> Result<OfAction, TextFault>
    ensures value { result ≡ pcp_of (word_view item.entry) }
    ensures sound { IfOk result (λ a. IsTrue (is_sound a)) }
{
    let pcp = number_argument(item, LAST_PCP)?;
    Ok(OfAction::SetPcp(pcp as u8))
}

// The actions of a closed item of this name: that it is the only one, or the last one, counts for some.
fn action_of(
    name: ActionName,
    only: bool,
    last: bool,
    item: Word<'_>,
) -> Result<Option<OfAction>, TextFault>
    requires { IsTrue (names_written name) }
    ensures value { actions_read result ≡ actions_named name only last (word_view item.entry) }
    ensures sound { IfOk result (λ o. IfSome o (λ a. IsTrue (is_sound a))) }
{
    match name {
        ActionName::Port => one(output_number(item)),
        ActionName::Output => one(output(item)),
        ActionName::InPort => one(alone(item, OfAction::InPort)),
        ActionName::All => one(alone(item, OfAction::All)),
        ActionName::Flood => one(alone(item, OfAction::Flood)),
        ActionName::Drop => drop_item(only, item),
        ActionName::Resubmit => one(resubmit(item)),
        ActionName::GotoTable => one(goto_item(last, item)),
        ActionName::Load => one(load(item)),
        ActionName::SetField => one(set_field(item)),
        ActionName::Move => one(move_bits(item)),
        ActionName::Mod(field) => one(modify(field, item)),
        ActionName::ModVlanVid => one(set_vid(item)),
        ActionName::ModVlanPcp => one(set_pcp(item)),
        ActionName::DecTtl => one(alone(item, OfAction::DecTtl)),
        ActionName::PushVlan => one(push_vlan(item)),
        ActionName::PopVlan => one(alone(item, OfAction::PopVlan)),
        ActionName::Unsupported => Err(TextFault::Unsupported { col: item.column() }),
    }
}

// The actions of an item with a name.
fn closed_item(
    item: Word<'_>,
    closed: bool,
    name: ActionName,
    only: bool,
    last: bool,
) -> Result<Option<OfAction>, TextFault>
    requires closed { closed ≡ is_closed item.text.now }
    requires written { IsTrue (names_written name) }
    ensures value { actions_read result ≡ closed_item (word_view item.entry) name only last }
    ensures sound { IfOk result (λ o. IfSome o (λ a. IsTrue (is_sound a))) }
{
    if let ActionName::Unsupported = name {
        return Err(TextFault::Unsupported { col: item.column() });
    }
    if closed {
        action_of(name, only, last, item)
    } else {
        Err(TextFault::Syntax { col: item.column() })
    }
}

/// The action of an item, or none where it is `drop`.
///
/// The caller knows whether all brackets of the item close, and whether it is the only one of its list, or the last one.
#[tactic(auto, unfolding(spec_flow_text::specs::Actions::actions_of_item), using(crate::proofs::Mods::mods_are_written))]
pub fn read_item(
    item: Word<'_>,
    closed: bool,
    only: bool,
    last: bool,
) -> Result<Option<OfAction>, TextFault>
    requires { closed ≡ is_closed item.text.now }
    ensures value { actions_read result ≡ actions_of_item only last (word_view item.entry) }
    ensures sound { IfOk result (λ o. IfSome o (λ a. IsTrue (is_sound a))) }
{
    match action_named(name_in(item)) {
        Some(name) => closed_item(item, closed, name, only, last),
        None => Err(TextFault::UnknownName { col: item.column() }),
    }
}

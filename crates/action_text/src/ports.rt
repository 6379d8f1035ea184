ghost use Rattle.std.specs.Prelude.{◌≡◌, ◌≤◌, IfOk, IfSome, IsTrue};
ghost use Rattle.spec_keys.specs.Protocols.{is_tag_type};
ghost use Rattle.spec_actions.specs.Sound.{is_sound};
ghost use Rattle.spec_flow_text.specs.Actions.{port_of, number_argument, tag_type, push_vlan, reserved, output_field, output_to, output};
ghost use Rattle.field_text.specs.WordViews.{word_view};

use crate::fields::{field_in, slice_name};
use crate::slices::slice_of;
use crate::words::argument;
use field_text::{ActionName, TextFault, Word, begins_with_digit, reserved_port_named};
use spec_actions::OfAction;
use text_numbers::{LAST_PORT, as_port, read_number};

// The types of a VLAN tag, of a customer's network and of a service provider's (IEEE 802.1Q, table 9-1).
const CUSTOMER_TAG: u128 = 0x8100;

const SERVICE_TAG: u128 = 0x88a8;

/// An output to the port of a number.
#[tactic(auto, unfolding(spec_flow_text::specs::Actions::port_of))]
pub fn port_of(text: &[u8]) -> Option<OfAction>
    ensures value { result ≡ port_of text.now }
    ensures sound { IfSome result (λ action. IsTrue (is_sound action)) }
{
    let number = read_number(text, u128::from(LAST_PORT))?;
    let port = as_port(number)?;
    Some(OfAction::Output(port))
}

/// The number of an item, at most so much.
#[tactic(auto, unfolding(spec_flow_text::specs::Actions::number_argument))]
pub fn number_argument(item: Word<'_>, most: u128) -> Result<u128, TextFault>
    ensures value { result ≡ number_argument most (word_view item.entry) }
    ensures fits { IfOk result (λ number. number ≤ most) }
{
    let value = argument(item)?;
    match read_number(value.text, most) {
        Some(number) => Ok(number),
        None => Err(TextFault::BadValue {
            col: value.column(),
        }),
    }
}

// The type of a VLAN tag, if a number is one.
fn tag_type(number: u128) -> Option<u16>
    ensures value { result ≡ tag_type number }
    ensures is_one { IfSome result (λ tpid. IsTrue (is_tag_type tpid)) }
{
    match number {
        CUSTOMER_TAG | SERVICE_TAG => Some(number as u16),
        _ => None,
    }
}

/// A push of a tag of this type.
#[tactic(auto, unfolding(spec_flow_text::specs::Actions::push_vlan))]
pub fn push_vlan(item: Word<'_>) -> Result<OfAction, TextFault>
    ensures value { result ≡ push_vlan (word_view item.entry) }
    ensures sound { IfOk result (λ action. IsTrue (is_sound action)) }
{
    let value = argument(item)?;
    match read_number(value.text, u128::from(u16::MAX)).and_then(tag_type) {
        Some(tpid) => Ok(OfAction::PushVlan(tpid)),
        None => Err(TextFault::BadValue {
            col: value.column(),
        }),
    }
}

fn reserved(name: ActionName) -> OfAction
    ensures value { result ≡ reserved name }
    ensures sound { IsTrue (is_sound result) }
{
    match name {
        ActionName::All => OfAction::All,
        ActionName::Flood => OfAction::Flood,
        _ => OfAction::InPort,
    }
}

fn output_field(item: Word<'_>, value: Word<'_>) -> Result<OfAction, TextFault>
    ensures value { result ≡ output_field (word_view item.entry) (word_view value.entry) }
    ensures sound { IfOk result (λ action. IsTrue (is_sound action)) }
{
    let field = field_in(item, slice_name(value))?;
    let slice = slice_of(field, value)?;
    Ok(OfAction::OutputField(slice))
}

fn output_to(item: Word<'_>, value: Word<'_>) -> Result<OfAction, TextFault>
    ensures value { result ≡ output_to (word_view item.entry) (word_view value.entry) }
    ensures sound { IfOk result (λ action. IsTrue (is_sound action)) }
{
    if begins_with_digit(value.text) {
        return match port_of(value.text) {
            Some(action) => Ok(action),
            None => Err(TextFault::BadValue {
                col: value.column(),
            }),
        };
    }
    match reserved_port_named(value.text) {
        Some(name) => Ok(reserved(name)),
        None => output_field(item, value),
    }
}

/// An output to a port: a number, a reserved port, or the bits of a field.
#[tactic(auto, unfolding(spec_flow_text::specs::Actions::output))]
pub fn output(item: Word<'_>) -> Result<OfAction, TextFault>
    ensures value { result ≡ output (word_view item.entry) }
    ensures sound { IfOk result (λ action. IsTrue (is_sound action)) }
{
    let value = argument(item)?;
    output_to(item, value)
}

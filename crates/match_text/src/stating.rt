ghost use Rattle.std.specs.Prelude.{◌≡◌, ◌≤◌, IfOk, IfSome};
ghost use Rattle.std.specs.Option.{option_map};
ghost use Rattle.std.specs.List.{list_any};
ghost use Rattle.spec_keys.specs.Fields.{place_of};
ghost use Rattle.spec_flow_text.specs.Names.{protocol_stated};
ghost use Rattle.spec_flow_text.specs.Given.{Gives};
ghost use Rattle.spec_flow_text.specs.Items as items;
ghost use Rattle.field_text.specs.Views.{IsWithin};
ghost use Rattle.match_text.specs.Views.{sofar_view};

use crate::sofar::Sofar;
use field_text::{Part, Shorthand, TagPart, TextFault, protocol_part, type_part};
use ovs_fields::FieldId;
use text_numbers::read_number;

// The place of a field in the key.
pub fn place_of(field: FieldId) -> u32
    ensures { result ≡ place_of field }
{
    field as u32
}

// The bit of a vlan_tci that says that there is a tag.
const TAG_BIT: u128 = named_fields::TAG_BIT as u128;

// An item on the identifier of a tag and one on its priority.
fn are_of_one_tag(a: TagPart, b: TagPart) -> bool
    ensures { result ≡ items.are_of_one_tag a b }
{
    match (a, b) {
        (TagPart::Identifier, TagPart::Priority) | (TagPart::Priority, TagPart::Identifier) => true,
        _ => false,
    }
}

// Whether what two parts both state is no more than that there is a tag, or that there is none.
fn share_tag_bit(a: &Part, b: &Part) -> bool
    ensures { result ≡ items.share_tag_bit a.now b.now }
{
    are_of_one_tag(a.tag, b.tag)
        & (a.mask & b.mask == TAG_BIT)
        & (a.value & TAG_BIT == b.value & TAG_BIT)
}

// Whether two parts state a bit both.
fn repeats(a: &Part, b: &Part) -> bool
    ensures { result ≡ items.repeats a.now b.now }
{
    (place_of(a.field) == place_of(b.field)) & (a.mask & b.mask != 0) & !share_tag_bit(a, b)
}

fn is_stated(parts: &[Part], part: &Part) -> bool
    ensures { result ≡ list_any (items.repeats part.now) parts.now }
{
    parts.iter().any(|earlier| repeats(part, earlier))
}

/// Bits that no earlier item has stated.
#[tactic(auto, unfolding(spec_flow_text::specs::Items::with_part))]
pub fn with_part(col: u32, part: Part, sofar: &mut Sofar) -> Result<(), TextFault>
    requires { IsWithin part }
    ensures { Gives (λ _. sofar_view sofar.new) result
        (items.with_part col part (sofar_view sofar.old)) }
{
    if is_stated(&sofar.parts, &part) {
        return Err(TextFault::Repeated { col });
    }
    sofar.parts.push(part)?;
    Ok(())
}

fn with_protocol(col: u32, shorthand: Shorthand, sofar: &mut Sofar) -> Result<(), TextFault>
    ensures { Gives (λ _. sofar_view sofar.new) result
        (items.with_protocol col (protocol_stated shorthand) (sofar_view sofar.old)) }
{
    match protocol_part(shorthand) {
        None => Ok(()),
        Some(part) => with_part(col, part, sofar),
    }
}

/// A shorthand states a type, and a protocol where it has one.
#[tactic(auto, unfolding(spec_flow_text::specs::Items::with_shorthand))]
pub fn with_shorthand(col: u32, shorthand: Shorthand, sofar: &mut Sofar) -> Result<(), TextFault>
    ensures { Gives (λ _. sofar_view sofar.new) result
        (items.with_shorthand col shorthand (sofar_view sofar.old)) }
{
    with_part(col, type_part(shorthand), sofar)?;
    with_protocol(col, shorthand, sofar)
}

/// Bits that a value states, where it is one.
pub fn with_value(
    col: u32,
    value_col: u32,
    part: Option<Part>,
    sofar: &mut Sofar,
) -> Result<(), TextFault>
    requires { IfSome part (λ p. IsWithin p) }
    ensures { Gives (λ _. sofar_view sofar.new) result
        (items.with_value col value_col part (sofar_view sofar.old)) }
{
    match part {
        None => Err(TextFault::BadValue { col: value_col }),
        Some(part) => with_part(col, part, sofar),
    }
}

/// A number of at most so much, which no earlier item has given.
#[tactic(auto, unfolding(spec_flow_text::specs::Items::number_once))]
pub fn number_once(
    col: u32,
    value_col: u32,
    before: Option<u64>,
    most: u64,
    value: &[u8],
) -> Result<u64, TextFault>
    ensures value { Gives (λ n. n) result (items.number_once col value_col before most value.now) }
    ensures fits { IfOk result (λ n. n ≤ most) }
{
    if before.is_some() {
        return Err(TextFault::Repeated { col });
    }
    if value.is_empty() {
        return Err(TextFault::Syntax { col });
    }
    match read_number(value, u128::from(most)) {
        None => Err(TextFault::BadValue { col: value_col }),
        Some(number) => Ok(number as u64),
    }
}

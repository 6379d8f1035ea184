ghost use Rattle.std.specs.Prelude.{◌≡◌, ◌++◌, [], Option, true, false, IfOk, IfSome, OnOk, OnErr, string_bytes};
ghost use Rattle.spec_flow_text.specs.declared.shorthand.Shorthand.{Shorthand as ShorthandOf};
ghost use Rattle.std.specs.List.{flat_map};
ghost use Rattle.spec_flow_text.specs.Printed as printed;
ghost use Rattle.rule_tables.specs.Views.{match_view};
ghost use Rattle.text_numbers.specs.Added.{Adds};
ghost use Rattle.match_text.specs.Shown.{shown_view, IsFit, item_of, lead, items_text, begun_after};

use crate::parts::{
    ETHERNET, NETWORK, OTHERS, REGISTERS, network_is_unstated, others_are_unstated,
    registers_are_unstated,
};
use crate::showing::{shorthand_of, shown_field};
use crate::shown::Shown;
use field_text::{Shorthand, name_of, print_value, word_of};
use ovs_fields::FieldId;
use rule_tables::Match;
use std::alloc::AllocError;

fn print_lead(out: &mut String, begun: bool) -> Result<(), AllocError>
    ensures { Adds out.old out.new (lead begun) result }
{
    if begun {
        return out.push(',');
    }
    Ok(())
}

fn print_shown(out: &mut String, item: Shown) -> Result<(), AllocError>
    requires { IsFit item }
    ensures { Adds out.old out.new (printed.shown_text (shown_view item)) result }
{
    match item {
        Shown::Short(shorthand) => out.push_str(word_of(shorthand)),
        Shown::Value(field, bits) => {
            out.push_str(name_of(field))?;
            out.push('=')?;
            print_value(out, field, bits)
        }
    }
}

// An item that may be missing, behind a comma where others stand before it. What is answered is whether one does now.
#[tactic(auto, unfolding(crate::specs::Shown::items_text))]
fn print_item(out: &mut String, begun: bool, item: Option<Shown>) -> Result<bool, AllocError>
    requires { IfSome item (λ x. IsFit x) }
    ensures added { Adds out.old out.new (items_text begun (item_of item)) result }
    ensures begun { IfOk result (λ after. after ≡ begun_after begun (item_of item)) }
{
    match item {
        None => Ok(begun),
        Some(item) => {
            print_lead(out, begun)?;
            print_shown(out, item)?;
            Ok(true)
        }
    }
}

// Whether nothing is shown of a field, since no bit of it is stated. A type may be told by a shorthand all the same.
fn is_unstated(m: &Match, field: FieldId) -> bool
    ensures { result ≡ true → (s : Option ShorthandOf) → printed.shown_field (match_view m.now) s field ≡ [] }
{
    match field {
        FieldId::DlType => false,
        _ => m.mask.get(field) == 0,
    }
}

// The items of a field.
fn print_field(
    m: &Match,
    shorthand: Option<Shorthand>,
    field: FieldId,
    begun: bool,
    out: &mut String,
) -> Result<bool, AllocError>
    ensures added { Adds out.old out.new
        (items_text begun (printed.shown_field (match_view m.now) shorthand field)) result }
    ensures begun { IfOk result (λ after.
        after ≡ begun_after begun (printed.shown_field (match_view m.now) shorthand field)) }
{
    if is_unstated(m, field) {
        return Ok(begun);
    }
    let (first, second) = shown_field(m, shorthand, field);
    let begun = print_item(out, begun, first)?;
    print_item(out, begun, second)
}

// The items of fields, in their order.
fn print_fields(
    m: &Match,
    shorthand: Option<Shorthand>,
    fields: &[FieldId],
    mut begun: bool,
    out: &mut String,
) -> Result<bool, AllocError>
    ensures added { Adds out.old out.new
        (items_text begun (flat_map (printed.shown_field (match_view m.now) shorthand) fields.now))
        result }
    ensures begun { IfOk result (λ after. after
        ≡ begun_after begun (flat_map (printed.shown_field (match_view m.now) shorthand) fields.now)) }
{
    'fields: for field in fields {
        begun = print_field(m, shorthand, *field, begun, out)?;
    }
    Ok(begun)
}

// The items of some fields, which aren't gone through where no bit of them is stated.
fn print_part(
    m: &Match,
    shorthand: Option<Shorthand>,
    are_unstated: bool,
    fields: &[FieldId],
    begun: bool,
    out: &mut String,
) -> Result<bool, AllocError>
    requires { are_unstated ≡ true
        → flat_map (printed.shown_field (match_view m.now) shorthand) fields.now ≡ [] }
    ensures added { Adds out.old out.new
        (items_text begun (flat_map (printed.shown_field (match_view m.now) shorthand) fields.now))
        result }
    ensures begun { IfOk result (λ after. after
        ≡ begun_after begun (flat_map (printed.shown_field (match_view m.now) shorthand) fields.now)) }
{
    if are_unstated {
        return Ok(begun);
    }
    print_fields(m, shorthand, fields, begun, out)
}

/// Adds the text of a match: its items in the order of the fields, with commas between them.
///
/// Where memory runs out the text begins with what it was.
pub fn print_match(m: &Match, out: &mut String) -> Result<(), AllocError>
    ensures { Adds out.old out.new (printed.match_printed (match_view m.now)) result }
{
    let shorthand = shorthand_of(m);
    let begun = print_field(m, shorthand, FieldId::InPort, false, out)?;
    let begun = print_part(
        m,
        shorthand,
        registers_are_unstated(m),
        &REGISTERS,
        begun,
        out,
    )?;
    let begun = print_fields(m, shorthand, &ETHERNET, begun, out)?;
    let begun = print_part(m, shorthand, network_is_unstated(m), &NETWORK, begun, out)?;
    print_part(m, shorthand, others_are_unstated(m), &OTHERS, begun, out)?;
    Ok(())
}

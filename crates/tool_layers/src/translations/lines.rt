//! Translations as lines, and their visits counted.
ghost use Rattle.std.specs.Prelude.{IfOk};
ghost use Rattle.spec_flow_text.specs.Within.{AreWithinFields};
ghost use Rattle.pipe_model.specs.Runnable.{AreRunnable};

use action_text::{print_dp_actions, translation_is_within_fields};
use ovs_fields::{Key, Mask, all_fields};
use pipe_model::{SpareLists, Translated};
use std::alloc::{AllocError, Global};
use std::fmt::Write;
use tuple_classifier::Tables;
use xlate_pipeline::translate;

/// The translation of a packet, whose actions can be printed.
fn translated(
    alloc: Global,
    tables: &Tables<'_>,
    ports: &[u16],
    key: &Key,
) -> Result<Translated, AllocError>
    requires { AreRunnable tables.now.rules }
    ensures { IfOk result (λ x. AreWithinFields x.translation.actions) }
{
    translation_is_within_fields();
    let made = translate(SpareLists::new(alloc), tables, ports, key)?;
    Ok(made)
}

/// Adds a number and a space for each field.
fn print_mask(mask: &Mask, text: &mut String) -> Result<(), AllocError> {
    for field in all_fields() {
        let bits = mask.get(*field);
        write!(text, "{bits:x} ")?;
    }
    Ok(())
}

/// Adds the numbers of rules, or `-` where there is none.
fn print_visits(visits: &[u32], text: &mut String) -> Result<(), AllocError> {
    let [first, others @ ..] = visits else {
        return text.push('-');
    };
    write!(text, "{first}")?;
    for number in others {
        write!(text, "+{number}")?;
    }
    Ok(())
}

/// Adds the line of a translation.
fn print_translation(made: &Translated, text: &mut String) -> Result<(), AllocError>
    requires { AreWithinFields made.now.translation.actions }
{
    print_mask(made.mask(), text)?;
    text.push_str("actions=")?;
    print_dp_actions(made.actions().as_slice(), text)?;
    text.push_str(" visits=")?;
    print_visits(made.visits().as_slice(), text)?;
    text.push('\n')
}

/// Adds the line of the translation of a packet.
fn print_packet(
    alloc: Global,
    tables: &Tables<'_>,
    ports: &[u16],
    key: &Key,
    text: &mut String,
) -> Result<(), AllocError>
    requires { AreRunnable tables.now.rules }
{
    let made = translated(alloc, tables, ports, key)?;
    let printed = print_translation(&made, text);
    drop(made);
    printed
}

/// The lines of the translations of packets.
pub fn text_of(
    alloc: Global,
    tables: &Tables<'_>,
    ports: &[u16],
    keys: &[Key],
) -> Result<String, AllocError>
    requires { AreRunnable tables.now.rules }
{
    let mut text = String::new(alloc);
    for key in keys {
        print_packet(alloc, tables, ports, key, &mut text)?;
    }
    Ok(text)
}

/// The lists of the last translation, and how many rules were visited so far.
#[derive(Drop)]
struct Visiting {
    lists: SpareLists,
    visits: u64,
}

/// Translates packets into the lists of the translations before, and counts the rules that they visit.
fn visit_round(
    before: Visiting,
    tables: &Tables<'_>,
    ports: &[u16],
    keys: &[Key],
) -> Result<Visiting, AllocError>
    requires { AreRunnable tables.now.rules }
{
    let Visiting {
        mut lists,
        mut visits,
    } = before;
    for key in keys {
        let made = translate(lists, tables, ports, key)?;
        visits = visits.saturating_add(made.visits().as_slice().len() as u64);
        let (made, _) = made.into_parts();
        lists = made.into_spare();
    }
    Ok(Visiting { lists, visits })
}

/// How many rules are visited where the packets are translated so many times.
///
/// Each translation uses the lists of the one before again, so that it takes no memory but where it is longer than all
/// before.
pub fn visits_in_rounds(
    alloc: Global,
    tables: &Tables<'_>,
    ports: &[u16],
    keys: &[Key],
    rounds: u32,
) -> Result<u64, AllocError>
    requires { AreRunnable tables.now.rules }
{
    let mut so_far = Visiting {
        lists: SpareLists::new(alloc),
        visits: 0,
    };
    for _ in 0..rounds {
        so_far = visit_round(so_far, tables, ports, keys)?;
    }
    Ok(so_far.visits)
}

//! The order of classes: those of one pair of actions stand together, and of these the widest first.
ghost use Rattle.std.specs.List.Sorted.{IsPermutation};

use crate::class::Class;
use crate::cube::Cube;
use crate::deed::Deed;
use dp_actions::DpAction;
use ovs_fields::{Mask, all_fields};
use rule_tables::OfAction;
use spec_actions::Slice;
use std::cmp::Ordering;

fn compare_numbers(a: &[u128], b: &[u128]) -> Ordering {
    for (x, y) in a.iter().zip(b) {
        match x.cmp(y) {
            Ordering::Equal => {}
            order => return order,
        }
    }
    a.len().cmp(&b.len())
}

// Which action it is, and what it says.
fn numbers_of(action: &DpAction) -> [u128; 4] {
    match action {
        DpAction::Output(port) => [0, u128::from(*port), 0, 0],
        DpAction::PopVlan => [1, 0, 0, 0],
        DpAction::PushVlan { tpid, tci } => [2, u128::from(*tpid), u128::from(*tci), 0],
        DpAction::Set { field, value, mask } => [3, u128::from(*field as u8), *value, *mask],
    }
}

fn compare_actions(a: &[DpAction], b: &[DpAction]) -> Ordering {
    for (x, y) in a.iter().zip(b) {
        match compare_numbers(&numbers_of(x), &numbers_of(y)) {
            Ordering::Equal => {}
            order => return order,
        }
    }
    a.len().cmp(&b.len())
}

// Of a slice its name and its bits.
fn numbers_of_slice(slice: &Slice) -> [u128; 3] {
    [
        u128::from(slice.name as u8),
        u128::from(slice.low),
        u128::from(slice.high),
    ]
}

// Which flow action it is, and what it says.
fn numbers_of_flow(action: &OfAction) -> [u128; 7] {
    match action {
        OfAction::Output(port) => [0, u128::from(*port), 0, 0, 0, 0, 0],
        OfAction::OutputField(slice) => {
            let [name, low, high] = numbers_of_slice(slice);
            [1, name, low, high, 0, 0, 0]
        }
        OfAction::InPort => [2, 0, 0, 0, 0, 0, 0],
        OfAction::All => [3, 0, 0, 0, 0, 0, 0],
        OfAction::Flood => [4, 0, 0, 0, 0, 0, 0],
        OfAction::Resubmit(table) => [5, u128::from(*table), 0, 0, 0, 0, 0],
        OfAction::Goto(table) => [6, u128::from(*table), 0, 0, 0, 0, 0],
        OfAction::Set { name, value, mask } => [7, u128::from(*name as u8), *value, *mask, 0, 0, 0],
        OfAction::Move { from, to } => {
            let [name, low, high] = numbers_of_slice(from);
            let [target, bottom, top] = numbers_of_slice(to);
            [8, name, low, high, target, bottom, top]
        }
        OfAction::DecTtl => [9, 0, 0, 0, 0, 0, 0],
        OfAction::PushVlan(tpid) => [10, u128::from(*tpid), 0, 0, 0, 0, 0],
        OfAction::PopVlan => [11, 0, 0, 0, 0, 0, 0],
        OfAction::SetVid(vid) => [12, u128::from(*vid), 0, 0, 0, 0, 0],
        OfAction::SetPcp(pcp) => [13, u128::from(*pcp), 0, 0, 0, 0, 0],
    }
}

fn compare_flows(a: &[OfAction], b: &[OfAction]) -> Ordering {
    for (x, y) in a.iter().zip(b) {
        match compare_numbers(&numbers_of_flow(x), &numbers_of_flow(y)) {
            Ordering::Equal => {}
            order => return order,
        }
    }
    a.len().cmp(&b.len())
}

// Datapath actions stand before flow actions.
fn compare_deeds(a: &Deed, b: &Deed) -> Ordering {
    match (a, b) {
        (Deed::Datapath(x), Deed::Datapath(y)) => compare_actions(x.as_slice(), y.as_slice()),
        (Deed::Datapath(_), Deed::Flow(_)) => Ordering::Less,
        (Deed::Flow(_), Deed::Datapath(_)) => Ordering::Greater,
        (Deed::Flow(x), Deed::Flow(y)) => compare_flows(x.as_slice(), y.as_slice()),
    }
}

// How many bits of a packet are stated.
fn stated(mask: &Mask) -> u32 {
    let mut count: u32 = 0;
    for field in all_fields() {
        count = count.saturating_add(mask.get(*field).count_ones());
    }
    count
}

// The one that states fewer bits stands first, and of those that state as many the one with the lesser numbers.
fn compare_cubes(a: &Cube, b: &Cube) -> Ordering {
    match stated(&a.mask).cmp(&stated(&b.mask)) {
        Ordering::Equal => {}
        order => return order,
    }
    for field in all_fields() {
        let first = a.key.get(*field) & a.mask.get(*field);
        let second = b.key.get(*field) & b.mask.get(*field);
        match first.cmp(&second) {
            Ordering::Equal => {}
            order => return order,
        }
    }
    Ordering::Equal
}

fn compare_classes(a: &Class, b: &Class) -> Ordering {
    match compare_deeds(&a.old, &b.old) {
        Ordering::Equal => {}
        order => return order,
    }
    match compare_deeds(&a.new, &b.new) {
        Ordering::Equal => {}
        order => return order,
    }
    compare_cubes(&a.cube, &b.cube)
}

/// Puts classes in order. It takes no memory.
pub(crate) fn put_in_order(classes: &mut Vec<Class>)
    ensures { IsPermutation classes.old.items classes.new.items }
{
    classes.sort_unstable_by(|a, b| compare_classes(a, b));
}

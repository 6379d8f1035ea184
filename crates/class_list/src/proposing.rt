//! Lines that may say the same as others, and may be fewer. Whether they do is checked, so nothing is proved of the
//! choice.
ghost use Rattle.class_list.specs.Meetings.{CanMeet};

use crate::agreeing::{Agreement, add_cubes, compare_lists, settle};
use crate::budget::Budget;
use crate::line::Line;
use crate::meeting::{Meeting, Way, way_of};
use crate::saying::{has, said};
use ovs_fields::{FieldId, Mask, agree, all_fields, or};
use std::alloc::{AllocError, Global};
use std::cmp::Ordering;
use table_diff::{Class, Cube};
use xlate_pipeline::without_registers;

/// In how many cubes at most packets are looked at.
const STEP_LIMIT: u32 = 1 << 20;

/// All bits of `in_port`.
const IN_PORT_BITS: u128 = 0xffff;

/// A line, and the ways of a packet of it by both versions.
#[derive(Drop)]
struct Draft<'a> {
    line: Line<'a>,
    old: Way,
    new: Way,
}

/// How many bits of a packet are stated.
fn count_bits(mask: &Mask) -> u32 {
    let mut count: u32 = 0;
    for field in all_fields() {
        count = count.saturating_add(mask.get(*field).count_ones());
    }
    count
}

/// Whether two cubes have the same packets.
fn is_same_cube(a: &Cube, b: &Cube) -> bool {
    a.mask == b.mask && agree(&a.key, &b.key, &a.mask)
}

/// How a draft stands to another one: by ports, by the ways of the old version, and by those of the new one; then that
/// which states more bits is the lesser.
fn compare_drafts(a: &Draft<'_>, b: &Draft<'_>) -> Ordering {
    let first = a.line.cube.key.get(FieldId::InPort);
    let second = b.line.cube.key.get(FieldId::InPort);
    match first.cmp(&second) {
        Ordering::Equal => {}
        order => return order,
    }
    match a.old.compare(&b.old) {
        Ordering::Equal => {}
        order => return order,
    }
    match a.new.compare(&b.new) {
        Ordering::Equal => {}
        order => return order,
    }
    count_bits(&b.line.cube.mask).cmp(&count_bits(&a.line.cube.mask))
}

/// All packets that come the ways of the packet of a cube's key by both versions.
fn wide_cube(cube: &Cube, old: &Way, new: &Way) -> Cube {
    let mut mask = without_registers(&or(old.stated(), new.stated()));
    mask.add(FieldId::InPort, IN_PORT_BITS);
    Cube {
        key: cube.key,
        mask,
    }
}

/// The place behind which all drafts are greater.
fn sorted_place(drafts: &[Draft<'_>], draft: &Draft<'_>) -> usize {
    for (place, other) in drafts.iter().enumerate() {
        if let Ordering::Less = compare_drafts(draft, other) {
            return place;
        }
    }
    drafts.len()
}

/// The place of the first draft that has the packet of a cube's key.
fn first_place(drafts: &[Draft<'_>], cube: &Cube) -> usize {
    for (place, draft) in drafts.iter().enumerate() {
        if has(&draft.line.cube, &cube.key) {
            return place;
        }
    }
    drafts.len()
}

/// Adds a draft by which the packets of a cube are said what a class says, and answers its packets. Where the wide one
/// is there already, and says otherwise, it is one of the cube alone, before all that have the packet of its key.
fn add_draft<'a>(
    alloc: Global,
    old: &Meeting<'_>,
    new: &Meeting<'_>,
    drafts: &mut Vec<Draft<'a>>,
    cube: &Cube,
    class: Option<&'a Class>,
) -> Result<Cube, AllocError>
    requires old { CanMeet old.now }
    requires new { CanMeet new.now }
{
    let before = way_of(alloc, old, &cube.key)?;
    let after = way_of(alloc, new, &cube.key)?;
    let wide = wide_cube(cube, &before, &after);
    let known = drafts
        .iter()
        .any(|draft| is_same_cube(&draft.line.cube, &wide));
    let cube_of_line = if known { *cube } else { wide };
    let draft = Draft {
        line: Line {
            cube: cube_of_line,
            class,
        },
        old: before,
        new: after,
    };
    let place = if known {
        first_place(drafts, cube)
    } else {
        sorted_place(drafts, &draft)
    };
    let place = place.min(drafts.len());
    drafts.insert(place, draft)?;
    Ok(cube_of_line)
}

fn lines_in<'a>(alloc: Global, drafts: &[Draft<'a>]) -> Result<Vec<Line<'a>>, AllocError> {
    let mut lines = Vec::new(alloc);
    for draft in drafts {
        lines.push(draft.line)?;
    }
    Ok(lines)
}

/// Lines that may say the same as those that are told: one for each way on which they say otherwise than those so far.
/// There are none where they would be no fewer, or that takes too long.
pub(crate) fn propose<'a>(
    alloc: Global,
    old: &Meeting<'_>,
    new: &Meeting<'_>,
    told: &[Line<'a>],
    budget: &mut Budget,
) -> Result<Vec<Line<'a>>, AllocError>
    requires old { CanMeet old.now }
    requires new { CanMeet new.now }
{
    let mut drafts = Vec::new(alloc);
    let mut lines = Vec::new(alloc);
    let mut work = Vec::new(alloc);
    add_cubes(&mut work, told)?;
    for _ in 0..STEP_LIMIT {
        let within = budget.take(lines.len().saturating_add(told.len()));
        if lines.len() >= told.len() || !within {
            return Ok(Vec::new(alloc));
        }
        match work.pop() {
            None => return Ok(lines),
            Some(cube) => {
                if !settle(&mut work, cube, &lines, told)? {
                    let class = said(told, &cube.key);
                    let added = add_draft(alloc, old, new, &mut drafts, &cube, class)?;
                    lines = lines_in(alloc, &drafts)?;
                    work.push(cube)?;
                    work.push(added)?;
                }
            }
        }
    }
    Ok(Vec::new(alloc))
}

/// Lines but the one at a place.
fn without<'a>(
    alloc: Global,
    lines: &[Line<'a>],
    place: usize,
) -> Result<Vec<Line<'a>>, AllocError> {
    let mut others = Vec::new(alloc);
    for (at, line) in lines.iter().enumerate() {
        if at != place {
            others.push(*line)?;
        }
    }
    Ok(others)
}

/// Lines but for those, the last ones first, without which the others say the same as what is told.
pub(crate) fn trim<'a>(
    alloc: Global,
    lines: Vec<Line<'a>>,
    told: &[Line<'a>],
    budget: &mut Budget,
) -> Result<Vec<Line<'a>>, AllocError> {
    let mut left = lines;
    let count = left.len();
    for behind in 0..count {
        let fewer = without(alloc, left.as_slice(), count - 1 - behind)?;
        if let Agreement::Same = compare_lists(alloc, budget, fewer.as_slice(), told)? {
            left = fewer;
        }
    }
    Ok(left)
}

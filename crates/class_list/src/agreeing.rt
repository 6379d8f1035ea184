//! Whether two lists of lines say the same of each packet.
ghost use Rattle.std.specs.Prelude.{◌≡◌, ◌++◌, [], ◌∷◌, ◌<◌, true, IfNone, IfOk, OnOk};
ghost use Rattle.spec_keys.specs.Fields.{width_of};
ghost use Rattle.spec_tools.specs.Lines.{differing};
ghost use Rattle.table_diff.specs.Cubes.{cube_view, cubes_view};
ghost use Rattle.class_list.specs.LineViews.{line_view, lines_view};
ghost use Rattle.class_list.specs.Agreeing.{IsEven, IsSettled, HaveTheSame, SayTheSame};

use crate::budget::Budget;
use crate::line::Line;
use crate::saying::{first_open, is_same_said, said};
use ovs_fields::{FieldId, Mask, all_fields, width};
use std::alloc::{AllocError, Global};
use table_diff::{Cube, split_bit};
use xlate_pipeline::without_registers;

/// In how many cubes at most packets are looked at.
const STEP_LIMIT: u32 = 1 << 20;

/// What is found of two lists.
#[derive(Clone, Copy)]
pub(crate) enum Agreement {
    /// They say the same of each packet.
    Same,
    /// Not of those of this cube.
    Otherwise(Cube),
    /// It takes longer than is looked.
    TooLong,
}

/// A bit of a mask that another one lacks: the most significant one of the first field that has one.
fn open_bit(stated: &Mask, mask: &Mask) -> (FieldId, u32)
    ensures { result.1 < width_of result.0 }
{
    'fields: for field in all_fields() {
        let open = mask.get(*field) & !stated.get(*field);
        let bit = 127 - open.leading_zeros().min(127);
        if open != 0 && bit < width(*field) {
            return (*field, bit);
        }
    }
    (FieldId::InPort, 0)
}

/// Puts both halves of a cube with others: it is split at a bit of a mask that it doesn't state.
fn halve(work: &mut Vec<Cube>, cube: Cube, mask: &Mask) -> Result<(), AllocError>
    ensures { OnOk result (HaveTheSame (cubes_view (work.old.items ++ cube ∷ [])) (cubes_view work.new.items)) }
{
    let mut half = cube;
    let mask = without_registers(mask);
    let (field, bit) = open_bit(&cube.mask, &mask);
    split_bit(work, &mut half, &mask, field, bit)?;
    work.push(half)?;
    Ok(())
}

/// The bits of the first line of a list that has some packets of a cube and may lack others, or else of the other list.
fn open_bits(a: &[Line<'_>], b: &[Line<'_>], cube: &Cube) -> Option<Mask>
    ensures first { IfNone result (IsEven (lines_view a.now) (cube_view cube.now)) }
    ensures second { IfNone result (IsEven (lines_view b.now) (cube_view cube.now)) }
{
    match first_open(a, cube) {
        Some(mask) => Some(mask),
        None => first_open(b, cube),
    }
}

/// Settles a cube: where each list says one thing of all its packets, it is answered whether that is the same, and
/// else its halves are put with others.
pub(crate) fn settle(
    work: &mut Vec<Cube>,
    cube: Cube,
    a: &[Line<'_>],
    b: &[Line<'_>],
) -> Result<bool, AllocError>
    ensures { IfOk result (λ same. same ≡ true → IsSettled (lines_view a.now) (lines_view b.now)
        (cubes_view (work.old.items ++ cube ∷ [])) (cubes_view work.new.items)) }
{
    match open_bits(a, b, &cube) {
        Some(mask) => {
            halve(work, cube, &mask)?;
            Ok(true)
        }
        None => Ok(is_same_said(said(a, &cube.key), said(b, &cube.key))),
    }
}

/// Settles cubes, up to the first of which the lists don't say the same.
fn settle_all(
    budget: &mut Budget,
    work: Vec<Cube>,
    a: &[Line<'_>],
    b: &[Line<'_>],
) -> Result<Agreement, AllocError>
    ensures { IfOk result (λ found. found ≡ Agreement.Same →
        IsSettled (lines_view a.now) (lines_view b.now) (cubes_view work.items) []) }
{
    let mut work = work;
    'cubes: for _ in 0..STEP_LIMIT {
        if !budget.take(a.len().saturating_add(b.len())) {
            return Ok(Agreement::TooLong);
        }
        match work.pop() {
            None => return Ok(Agreement::Same),
            Some(cube) => {
                let same = settle(&mut work, cube, a, b)?;
                if !same {
                    return Ok(Agreement::Otherwise(cube));
                }
            }
        }
    }
    Ok(Agreement::TooLong)
}

/// Puts the cube of a line with others, if it tells a difference.
fn add_cube(work: &mut Vec<Cube>, line: &Line<'_>) -> Result<(), AllocError>
    ensures { OnOk result
        (cubes_view work.new.items ≡ cubes_view work.old.items ++ differing (line_view line.now ∷ [])) }
{
    match line.class {
        None => Ok(()),
        Some(_) => {
            work.push(line.cube)?;
            Ok(())
        }
    }
}

/// Puts the cubes of all lines that tell a difference with others.
pub(crate) fn add_cubes(work: &mut Vec<Cube>, lines: &[Line<'_>]) -> Result<(), AllocError>
    ensures { OnOk result (cubes_view work.new.items ≡ cubes_view work.old.items ++ differing (lines_view lines.now)) }
{
    'lines: for line in lines {
        add_cube(work, line)?;
    }
    Ok(())
}

/// Whether two lists say the same of each packet. Of one that is in no line which tells a difference, they do.
pub(crate) fn compare_lists(
    alloc: Global,
    budget: &mut Budget,
    a: &[Line<'_>],
    b: &[Line<'_>],
) -> Result<Agreement, AllocError>
    ensures { IfOk result (λ found. found ≡ Agreement.Same → SayTheSame (lines_view a.now) (lines_view b.now)) }
{
    let mut work = Vec::new(alloc);
    add_cubes(&mut work, b)?;
    add_cubes(&mut work, a)?;
    settle_all(budget, work, a, b)
}

//! Lines that say the same as the classes of a difference.
ghost use Rattle.std.specs.Prelude.{◌≡◌, ◌≢◌, ℕ, List, [], ◌∷◌, true, length, IfOk, IsTrue};
ghost use Rattle.spec_tables.specs.Rules.{is_matched};
ghost use Rattle.spec_xlate.specs.Translation.{Switch};
ghost use Rattle.spec_tools.specs.Classes.{holding};
ghost use Rattle.spec_tools.specs.Lines.{matches_in, differing, differs, IsListed};
ghost use Rattle.ovs_fields.specs.Packed.{numbers};
ghost use Rattle.table_diff.specs.Cubes.{cube_view};
ghost use Rattle.class_list.specs.LineViews.{said_view, line_view, lines_view};
ghost use Rattle.class_list.specs.Listing.{AreFirst, AreOfPorts};

use crate::agreeing::{Agreement, compare_lists};
use crate::budget::Budget;
use crate::line::Line;
use crate::saying::{has, tells};
use ovs_fields::Key;
use std::alloc::{AllocError, Global};
use table_diff::{Cube, cube_of};

/// Whether no line has a packet of a key.
fn none_has(lines: &[Line<'_>], key: &Key) -> bool
    ensures { result ≡ true → holding (numbers key.now) (matches_in (lines_view lines.now)) ≡ 0 }
{
    'lines: for line in lines {
        if has(&line.cube, key) {
            return false;
        }
    }
    true
}

/// Whether a line is the first that has the packet of its key, if it tells a difference.
fn is_first(before: &[Line<'_>], line: &Line<'_>) -> bool
    ensures { result ≡ true → IsTrue (differs (said_view line.now.class))
        → holding (numbers line.now.cube.key) (matches_in (lines_view before.now)) ≡ 0 }
{
    match line.class {
        None => true,
        Some(_) => none_has(before, &line.cube.key),
    }
}

/// Whether that is so of each line.
fn are_first(lines: &[Line<'_>]) -> bool
    ensures { result ≡ true → AreFirst lines.now (length lines.now) }
{
    'lines: for i in 0..lines.len() {
        if !is_first(&lines[..i], &lines[i]) {
            return false;
        }
    }
    true
}

/// Whether another cube has all packets of a cube.
fn lies_within(cube: &Cube, other: &Cube) -> bool
    ensures { result ≡ true → (key : List ℕ) → IsTrue (is_matched key (cube_view cube.now))
        → IsTrue (is_matched key (cube_view other.now)) }
{
    tells(cube, other) & has(other, &cube.key)
}

/// Whether all packets of a cube come in by one of the ports.
fn is_of_ports(cube: &Cube, ports: &[u16]) -> bool
    ensures { result ≡ true → AreOfPorts ports.now (cube_view cube.now ∷ []) }
{
    'ports: for port in ports {
        if lies_within(cube, &cube_of(*port)) {
            return true;
        }
    }
    false
}

/// Whether those of a line come in by one of the ports, if it tells a difference.
fn is_line_of_ports(line: &Line<'_>, ports: &[u16]) -> bool
    ensures { result ≡ true → AreOfPorts ports.now (differing (line_view line.now ∷ [])) }
{
    match line.class {
        None => true,
        Some(_) => is_of_ports(&line.cube, ports),
    }
}

/// Whether that is so of each line.
fn are_of_ports(lines: &[Line<'_>], ports: &[u16]) -> bool
    ensures { result ≡ true → AreOfPorts ports.now (differing (lines_view lines.now)) }
{
    'lines: for line in lines {
        if !is_line_of_ports(line, ports) {
            return false;
        }
    }
    true
}

/// Whether a line tells a difference.
fn tells_difference(line: &Line<'_>) -> bool
    ensures { result ≡ differs (said_view line.now.class) }
{
    match line.class {
        None => false,
        Some(_) => true,
    }
}

/// Whether some line tells one.
fn tell_difference(lines: &[Line<'_>]) -> bool
    ensures { result ≡ true → differing (lines_view lines.now) ≢ [] }
{
    'lines: for line in lines {
        if tells_difference(line) {
            return true;
        }
    }
    false
}

/// Whether lines are as those of a difference, and say the same as these.
pub(crate) fn are_listed(
    alloc: Global,
    budget: &mut Budget,
    lines: &[Line<'_>],
    told: &[Line<'_>],
    ports: &[u16],
) -> Result<bool, AllocError>
    ensures { IfOk result (λ listed. listed ≡ true → (o n : Switch)
        → IsListed o n ports.now (lines_view told.now) → IsListed o n ports.now (lines_view lines.now)) }
{
    if !tell_difference(lines) {
        return Ok(false);
    }
    if !are_first(lines) {
        return Ok(false);
    }
    if !are_of_ports(lines, ports) {
        return Ok(false);
    }
    let found = compare_lists(alloc, budget, lines, told)?;
    match found {
        Agreement::Same => Ok(true),
        Agreement::Otherwise(_) => Ok(false),
        Agreement::TooLong => Ok(false),
    }
}

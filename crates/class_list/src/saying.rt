//! What lines say of the packets of a cube.
ghost use Rattle.std.specs.Prelude.{◌≡◌, true, IfNone};
ghost use Rattle.spec_tables.specs.Rules.{is_matched};
ghost use Rattle.spec_tools.specs.Lines.{said_of};
ghost use Rattle.ovs_fields.specs.Packed.{numbers, bits};
ghost use Rattle.table_diff.specs.Cubes.{cube_view};
ghost use Rattle.table_diff.specs.Deciding.{is_told};
ghost use Rattle.table_diff.specs.Deeds.{deed_view};
ghost use Rattle.class_list.specs.LineViews.{said_view, lines_view};
ghost use Rattle.class_list.specs.Agreeing.{IsEven};

use crate::line::Line;
use ovs_fields::{Key, Mask, agree, and, covers};
use rule_changes::are_same_actions;
use table_diff::{Class, Cube, Deed, are_same};

/// Whether another cube has all packets of a cube or none, as far as the bits that both state tell it.
pub(crate) fn tells(cube: &Cube, other: &Cube) -> bool
    ensures { result ≡ is_told (bits cube.now.mask) (numbers cube.now.key) (cube_view other.now) }
{
    covers(&cube.mask, &other.mask) || !agree(&cube.key, &other.key, &and(&cube.mask, &other.mask))
}

/// Whether a cube has a packet of a key.
pub(crate) fn has(cube: &Cube, key: &Key) -> bool
    ensures { result ≡ is_matched (numbers key.now) (cube_view cube.now) }
{
    agree(key, &cube.key, &cube.mask)
}

/// The bits of the first line that has some packets of a cube and may lack others, if there is one before a line that
/// has them all.
pub(crate) fn first_open(lines: &[Line<'_>], cube: &Cube) -> Option<Mask>
    ensures { IfNone result (IsEven (lines_view lines.now) (cube_view cube.now)) }
{
    'lines: for line in lines {
        if !tells(cube, &line.cube) {
            return Some(line.cube.mask);
        }
        if has(&line.cube, &cube.key) {
            return None;
        }
    }
    None
}

/// What lines say of a packet of a key.
pub(crate) fn said<'a>(lines: &[Line<'a>], key: &Key) -> Option<&'a Class>
    ensures { said_view result ≡ said_of (lines_view lines.now) (numbers key.now) }
{
    'lines: for line in lines {
        if has(&line.cube, key) {
            return line.class;
        }
    }
    None
}

/// Whether the same is said to be done.
fn is_same_deed(a: &Deed, b: &Deed) -> bool
    ensures { result ≡ true → deed_view a.now ≡ deed_view b.now }
{
    match (a, b) {
        (Deed::Datapath(x), Deed::Datapath(y)) => are_same(x.as_slice(), y.as_slice()),
        (Deed::Datapath(_), Deed::Flow(_)) => false,
        (Deed::Flow(_), Deed::Datapath(_)) => false,
        (Deed::Flow(x), Deed::Flow(y)) => are_same_actions(x.as_slice(), y.as_slice()),
    }
}

/// Whether two classes say the same.
fn is_same_class(a: &Class, b: &Class) -> bool
    ensures old { result ≡ true → deed_view a.now.old ≡ deed_view b.now.old }
    ensures new { result ≡ true → deed_view a.now.new ≡ deed_view b.now.new }
{
    is_same_deed(&a.old, &b.old) & is_same_deed(&a.new, &b.new)
}

/// Whether the same is said.
pub(crate) fn is_same_said(a: Option<&Class>, b: Option<&Class>) -> bool
    ensures { result ≡ true → said_view a.entry ≡ said_view b.entry }
{
    match (a, b) {
        (None, None) => true,
        (None, Some(_)) => false,
        (Some(_), None) => false,
        (Some(x), Some(y)) => is_same_class(x, y),
    }
}

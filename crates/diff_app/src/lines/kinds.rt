//! Lines that are classes of the same pair of actions.
ghost use Rattle.std.specs.Prelude.{◌≡◌, length};
ghost use Rattle.std.specs.List.{list_any, count_by};
ghost use Rattle.spec_tools.specs.Classes.{one_if};
ghost use Rattle.table_diff.specs.Deeds.{deed_view};
ghost use Rattle.class_list.specs.LineViews.{said_view, line_view, lines_view};
ghost use Rattle.spec_tools.specs.DiffTexts.{are_same_flow_actions, is_same_deed, is_same_kind, kind_of, kinds_in, kinds_of};
ghost use Rattle.diff_app.specs.Pieces.{kind_view, last_kind};

use class_list::Line;
use spec_actions::OfAction;
use table_diff::{Class, Deed, are_same};

/// Whether two lists of flow actions are the same.
fn are_same_flow_actions(a: &[OfAction], b: &[OfAction]) -> bool
    ensures { result ≡ are_same_flow_actions a.now b.now }
{
    a == b
}

/// Whether the same is said to be done.
fn is_same_deed(a: &Deed, b: &Deed) -> bool
    ensures { result ≡ is_same_deed (deed_view a.now) (deed_view b.now) }
{
    match (a, b) {
        (Deed::Datapath(x), Deed::Datapath(y)) => are_same(x.as_slice(), y.as_slice()),
        (Deed::Datapath(_), Deed::Flow(_)) => false,
        (Deed::Flow(_), Deed::Datapath(_)) => false,
        (Deed::Flow(x), Deed::Flow(y)) => are_same_flow_actions(x.as_slice(), y.as_slice()),
    }
}

/// Whether two classes have the same pair of actions.
fn is_same_kind(a: &Class, b: &Class) -> bool
    ensures { result ≡ is_same_kind (kind_view a.now) (kind_view b.now) }
{
    is_same_deed(&a.old, &b.old) & is_same_deed(&a.new, &b.new)
}

/// Whether a line tells the pair of actions of a class.
fn is_of_kind(line: &Line<'_>, class: &Class) -> bool
    ensures { result ≡ list_any (is_same_kind (kind_view class.now)) (kind_of (said_view line.now.class)) }
{
    match line.class {
        None => false,
        Some(other) => is_same_kind(class, other),
    }
}

fn any_has_kind(class: &Class, others: &[Line<'_>]) -> bool
    ensures { result ≡ list_any (λ line. list_any (is_same_kind (kind_view class.now)) (kind_of (said_view line.class)))
        others.now }
{
    others.iter().any(|line| is_of_kind(line, class))
}

/// Whether one of these lines tells it.
pub(crate) fn has_kind(class: &Class, others: &[Line<'_>]) -> bool
    ensures { result ≡ list_any (is_same_kind (kind_view class.now)) (kinds_in (lines_view others.now)) }
{
    any_has_kind(class, others)
}

fn one_if(test: bool) -> usize
    ensures { result ≡ one_if test }
{
    if test { 1 } else { 0 }
}

/// How many of these lines tell it.
pub(crate) fn count_kind(class: &Class, others: &[Line<'_>]) -> usize
    ensures { result ≡ count_by (is_same_kind (kind_view class.now)) (kinds_in (lines_view others.now)) }
{
    let mut count = 0;
    'others: for other in others {
        count += one_if(is_of_kind(other, class));
    }
    count
}

/// 1 if a line tells a pair of actions that no line of those that follow does.
fn count_last(line: &Line<'_>, later: &[Line<'_>]) -> usize
    ensures { result ≡ length (last_kind (kind_of (said_view line.now.class)) (kinds_in (lines_view later.now))) }
{
    match line.class {
        None => 0,
        Some(class) => one_if(!has_kind(class, later)),
    }
}

/// How many pairs of actions these lines tell.
pub(crate) fn count_kinds(lines: &[Line<'_>]) -> usize
    ensures { result ≡ length (kinds_of (kinds_in (lines_view lines.now))) }
{
    let mut count = 0;
    'lines: for i in 0..lines.len() {
        count += count_last(&lines[i], &lines[i + 1..]);
    }
    count
}

/// 1 if a line tells a difference.
fn count_class(line: &Line<'_>) -> usize
    ensures { result ≡ length (kind_of (said_view line.now.class)) }
{
    match line.class {
        None => 0,
        Some(_) => 1,
    }
}

/// How many lines tell a difference.
pub(crate) fn count_classes(lines: &[Line<'_>]) -> usize
    ensures { result ≡ length (kinds_in (lines_view lines.now)) }
{
    let mut count = 0;
    'lines: for line in lines {
        count += count_class(line);
    }
    count
}

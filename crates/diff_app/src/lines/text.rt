//! The text of lines and of kinds.
ghost use Rattle.std.specs.Prelude.{◌≡◌, ◌++◌, List, ℕ, All};
ghost use Rattle.std.specs.List.{flat_map};
ghost use Rattle.spec_board.specs.Texts.{line_of};
ghost use Rattle.spec_run.specs.Megaflows.{megaflow_match_text};
ghost use Rattle.text_numbers.specs.Added.{Adds};
ghost use Rattle.table_diff.specs.Cubes.{cube_view};
ghost use Rattle.table_diff.specs.Deeds.{deed_view, CanPrint};
ghost use Rattle.class_list.specs.LineViews.{said_view, line_view, lines_view};
ghost use Rattle.spec_tools.specs.DiffTexts.{deed_text, said_text, line_text, old_line, new_line, kind_of, kinds_in, kind_line, kinds_text, count_line, text_of_lines};
ghost use Rattle.diff_app.specs.Pieces.{kind_view, body_text, done_text, kind_text, last_kind_text, counts_text};

use crate::lines::kinds::{count_classes, count_kind, count_kinds, has_kind};
use action_text::{print_actions, print_dp_actions};
use class_list::Line;
use dump_lines::megaflows::print_megaflow_match;
use std::alloc::AllocError;
use table_diff::{Class, Cube, Deed};
use text_numbers::{print_decimal, print_word};

fn print_match_line(out: &mut String, cube: &Cube) -> Result<(), AllocError>
    ensures { Adds out.old out.new (line_of (megaflow_match_text (cube_view cube.now))) result }
{
    print_megaflow_match(out, &cube.key, &cube.mask)?;
    print_word(out, "\n")
}

// What a version does.
fn print_deed(out: &mut String, deed: &Deed) -> Result<(), AllocError>
    requires { CanPrint deed.now }
    ensures { Adds out.old out.new (deed_text (deed_view deed.now)) result }
{
    match deed {
        Deed::Datapath(actions) => print_dp_actions(actions.as_slice(), out),
        Deed::Flow(actions) => print_actions(actions.as_slice(), out),
    }
}

// The same, after a mark, as a line.
fn print_done_line(out: &mut String, mark: &str, deed: &Deed) -> Result<(), AllocError>
    requires { CanPrint deed.now }
    ensures { Adds out.old out.new (line_of (mark.now ++ deed_text (deed_view deed.now))) result }
{
    print_word(out, mark)?;
    print_deed(out, deed)?;
    print_word(out, "\n")
}

fn print_old_line(out: &mut String, class: &Class) -> Result<(), AllocError>
    ensures { Adds out.old out.new (old_line (deed_view class.now.old)) result }
{
    print_done_line(out, "- ", &class.old)
}

fn print_new_line(out: &mut String, class: &Class) -> Result<(), AllocError>
    ensures { Adds out.old out.new (new_line (deed_view class.now.new)) result }
{
    print_done_line(out, "+ ", &class.new)
}

fn print_both_lines(out: &mut String, class: &Class) -> Result<(), AllocError>
    ensures { Adds out.old out.new (old_line (deed_view class.now.old) ++ new_line (deed_view class.now.new)) result }
{
    print_old_line(out, class)?;
    print_new_line(out, class)
}

fn print_said(out: &mut String, line: &Line<'_>) -> Result<(), AllocError>
    ensures { Adds out.old out.new (said_text (said_view line.now.class)) result }
{
    match line.class {
        None => print_word(out, "=\n"),
        Some(class) => print_both_lines(out, class),
    }
}

// The match of a line, and what is said of its packets.
fn print_line(out: &mut String, line: &Line<'_>) -> Result<(), AllocError>
    ensures { Adds out.old out.new (line_text (line_view line.now)) result }
{
    print_match_line(out, &line.cube)?;
    print_said(out, line)
}

fn print_lines(out: &mut String, lines: &[Line<'_>]) -> Result<(), AllocError>
    ensures { Adds out.old out.new (flat_map line_text (lines_view lines.now)) result }
{
    'lines: for line in lines {
        print_line(out, line)?;
    }
    Ok(())
}

// What both versions do.
fn print_both(out: &mut String, class: &Class) -> Result<(), AllocError>
    ensures { Adds out.old out.new (done_text (kind_view class.now)) result }
{
    print_deed(out, &class.old)?;
    print_word(out, " -> ")?;
    print_deed(out, &class.new)
}

fn print_counted_kind(out: &mut String, count: usize, class: &Class) -> Result<(), AllocError>
    ensures { Adds out.old out.new (kind_text count (kind_view class.now)) result }
{
    print_decimal(out, count as u128)?;
    print_word(out, ": ")?;
    print_both(out, class)
}

// The line of the kind of a class among others.
fn print_kind_line(out: &mut String, lines: &[Line<'_>], class: &Class) -> Result<(), AllocError>
    ensures { Adds out.old out.new (kind_line (kinds_in (lines_view lines.now)) (kind_view class.now)) result }
{
    print_counted_kind(out, count_kind(class, lines), class)?;
    print_word(out, "\n")
}

// The same of a line, if it is a class, and none of those that follow has the kind.
fn print_last_kind(
    out: &mut String,
    lines: &[Line<'_>],
    line: &Line<'_>,
    later: &[Line<'_>],
) -> Result<(), AllocError>
    ensures { Adds out.old out.new (last_kind_text (kinds_in (lines_view lines.now))
        (kind_of (said_view line.now.class)) (kinds_in (lines_view later.now))) result }
{
    match line.class {
        None => Ok(()),
        Some(class) => {
            if has_kind(class, later) {
                return Ok(());
            }
            print_kind_line(out, lines, class)
        }
    }
}

fn print_kinds(out: &mut String, lines: &[Line<'_>]) -> Result<(), AllocError>
    ensures { Adds out.old out.new (kinds_text (kinds_in (lines_view lines.now))) result }
{
    'lines: for i in 0..lines.len() {
        print_last_kind(out, lines, &lines[i], &lines[i + 1..])?;
    }
    Ok(())
}

fn print_counts(out: &mut String, classes: usize, kinds: usize) -> Result<(), AllocError>
    ensures { Adds out.old out.new (counts_text classes kinds) result }
{
    print_decimal(out, classes as u128)?;
    print_word(out, " classes, ")?;
    print_decimal(out, kinds as u128)?;
    print_word(out, " kinds")
}

fn print_count_line(out: &mut String, lines: &[Line<'_>]) -> Result<(), AllocError>
    ensures { Adds out.old out.new (count_line (kinds_in (lines_view lines.now))) result }
{
    print_counts(out, count_classes(lines), count_kinds(lines))?;
    print_word(out, "\n")
}

// All but the last line of the text.
fn print_body(out: &mut String, lines: &[Line<'_>], brief: bool) -> Result<(), AllocError>
    ensures { Adds out.old out.new (body_text brief (lines_view lines.now)) result }
{
    if brief {
        print_kinds(out, lines)
    } else {
        print_lines(out, lines)
    }
}

/// Adds the text of a difference: that of each line, or, in brief, of each pair of actions, and how many classes and
/// pairs there are.
///
/// Nothing is added where there is no line. The only error is out of memory, and then the string has what it had, and
/// perhaps a part of the text.
pub fn print_difference(out: &mut String, lines: &[Line<'_>], brief: bool) -> Result<(), AllocError>
    ensures { Adds out.old out.new (text_of_lines brief (lines_view lines.now)) result }
{
    if lines.is_empty() {
        return Ok(());
    }
    print_body(out, lines, brief)?;
    print_count_line(out, lines)
}

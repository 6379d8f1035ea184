//! Lines, and the classes of a difference as such.
ghost use Rattle.std.specs.Prelude.{◌≡◌, IfOk};
ghost use Rattle.table_diff.specs.Cubes.{classes_view};
ghost use Rattle.class_list.specs.LineViews.{lines_view, class_lines};

use std::alloc::{AllocError, Global};
use table_diff::{Class, Cube};

/// Packets, with what is said of those that no line before has.
#[derive(Clone, Copy)]
pub struct Line<'a> {
    /// Which packets they are.
    pub cube: Cube,
    /// A class that tells what the old tables do to their frames, and what the new ones; none where both do the same.
    pub class: Option<&'a Class>,
}

/// Each class as a line.
pub(crate) fn class_lines<'a>(
    alloc: Global,
    classes: &'a [Class],
) -> Result<Vec<Line<'a>>, AllocError>
    ensures { IfOk result (λ v. lines_view v.items ≡ class_lines (classes_view classes.now)) }
{
    let mut lines = Vec::new(alloc);
    'classes: for class in classes {
        lines.push(Line {
            cube: class.cube,
            class: Some(class),
        })?;
    }
    Ok(lines)
}

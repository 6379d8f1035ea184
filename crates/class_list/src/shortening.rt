//! The lines of a difference: those that are proposed, if they say the same as the classes and are fewer.
ghost use Rattle.std.specs.Prelude.{IfOk};
ghost use Rattle.spec_xlate.specs.Translation.{Switch, switch_of};
ghost use Rattle.spec_tools.specs.Classes.{IsDifference};
ghost use Rattle.spec_tools.specs.Lines.{IsListed};
ghost use Rattle.dump_lines.specs.Live.{IsOfEdits, live_in};
ghost use Rattle.pipe_model.specs.Runnable.{AreRunnable};
ghost use Rattle.table_diff.specs.Cubes.{classes_view};
ghost use Rattle.class_list.specs.LineViews.{lines_view};

use crate::budget::Budget;
use crate::line::{Line, class_lines};
use crate::listing::are_listed;
use crate::meeting::Meeting;
use crate::proposing::{propose, trim};
use rule_tables::VersionedRules;
use std::alloc::{AllocError, Global};
use table_diff::Class;

/// How many lines are looked at in proposing, how many in leaving lines out, and how many in checking.
const LINES_LOOKED_AT: u64 = 1 << 24;

/// Lines, if they say the same as those that are told and are fewer, and else these.
fn shorter<'a>(
    alloc: Global,
    lines: Vec<Line<'a>>,
    told: Vec<Line<'a>>,
    ports: &[u16],
) -> Result<Vec<Line<'a>>, AllocError>
    ensures { IfOk result (λ v. (o n : Switch)
        → IsListed o n ports.now (lines_view told.entry.items) → IsListed o n ports.now (lines_view v.items)) }
{
    if lines.len() >= told.len() {
        return Ok(told);
    }
    let mut budget = Budget::new(LINES_LOOKED_AT);
    let listed = are_listed(alloc, &mut budget, &lines, &told, ports)?;
    if listed { Ok(lines) } else { Ok(told) }
}

/// The lines of the classes of a difference. Where there are no fewer lines that say the same, they are the classes, in
/// their order. The only error is out of memory.
pub fn lines_of<'a>(
    alloc: Global,
    old: &VersionedRules,
    new: &VersionedRules,
    ports: &[u16],
    classes: &'a [Class],
) -> Result<Vec<Line<'a>>, AllocError>
    requires old_edits { IsOfEdits old.now }
    requires new_edits { IsOfEdits new.now }
    requires old_runnable { AreRunnable (live_in old.now) }
    requires new_runnable { AreRunnable (live_in new.now) }
    requires difference { IsDifference (switch_of (live_in old.now) ports.now) (switch_of (live_in new.now) ports.now)
        ports.now (classes_view classes.now) }
    ensures { IfOk result (λ v.
        IsListed (switch_of (live_in old.now) ports.now) (switch_of (live_in new.now) ports.now)
        ports.now (lines_view v.items)) }
{
    let told = class_lines(alloc, classes)?;
    let old = Meeting { rules: old, ports };
    let new = Meeting { rules: new, ports };
    let mut budget = Budget::new(LINES_LOOKED_AT);
    let lines = propose(alloc, &old, &new, &told, &mut budget)?;
    let mut budget = Budget::new(LINES_LOOKED_AT);
    let lines = trim(alloc, lines, told.as_slice(), &mut budget)?;
    shorter(alloc, lines, told, ports)
}

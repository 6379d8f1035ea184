//! The comparison of two versions.
ghost use Rattle.std.specs.Prelude.{◌≡◌, IfOk, IfErr, map};
ghost use Rattle.spec_xlate.specs.Translation.{switch_of};
ghost use Rattle.dump_lines.specs.Live.{IsOfEdits, live_in};
ghost use Rattle.pipe_model.specs.Runnable.{AreRunnable};
ghost use Rattle.spec_tools.specs.Classes.{from_port, IsDifference};
ghost use Rattle.table_diff.specs.Cubes.{cube_view, cubes_view, classes_view};
ghost use Rattle.spec_tools.specs.Progress.{IsUnfinished, cube_limit};

use crate::class::Class;
use crate::cube::Cube;
use crate::error::CompareError;
use crate::judging::judge;
use crate::order::put_in_order;
use crate::settling::settle;
use ovs_fields::{FieldId, Key, Mask};
use rule_changes::changes_of;
use rule_tables::VersionedRules;
use std::alloc::{AllocError, Global};

/// How many cubes are looked into.
pub const CUBE_LIMIT: u32 = 1 << 22;

/// All packets that come in by a port.
pub fn cube_of(port: u16) -> Cube
    ensures { cube_view result ≡ from_port port }
{
    let mut key = Key::zero();
    key.set(FieldId::InPort, u128::from(port));
    let mut mask = Mask::none();
    mask.add(FieldId::InPort, 0xffff);
    Cube { key, mask }
}

/// All packets that come in by the ports, by port.
fn first(alloc: Global, ports: &[u16]) -> Result<Vec<Cube>, AllocError>
    ensures { IfOk result (λ v. cubes_view v.items ≡ map from_port ports.now) }
{
    let mut cubes = Vec::new(alloc);
    'ports: for port in ports {
        cubes.push(cube_of(*port))?;
    }
    Ok(cubes)
}

/// The classes as they are found.
fn find_classes(
    alloc: Global,
    old: &VersionedRules,
    new: &VersionedRules,
    ports: &[u16],
) -> Result<Vec<Class>, CompareError>
    requires old_edits { IsOfEdits old.now }
    requires new_edits { IsOfEdits new.now }
    requires old_runnable { AreRunnable (live_in old.now) }
    requires new_runnable { AreRunnable (live_in new.now) }
    ensures ok { IfOk result (λ v.
        IsDifference (switch_of (live_in old.now) ports.now) (switch_of (live_in new.now) ports.now)
        ports.now (classes_view v.items)) }
    ensures too_many { IfErr result (λ e. e ≡ CompareError.TooMany →
        IsUnfinished (switch_of (live_in old.now) ports.now) (switch_of (live_in new.now) ports.now) ports.now cube_limit) }
{
    let changes = changes_of(alloc, old, new)?;
    let mut work = first(alloc, ports)?;
    let mut classes = Vec::new(alloc);
    'cubes: for _ in 0..CUBE_LIMIT {
        match work.pop() {
            None => return Ok(classes),
            Some(cube) => {
                let judged = judge(alloc, old, new, ports, &changes, &cube)?;
                settle(&mut work, &mut classes, cube, judged)?;
            }
        }
    }
    if work.is_empty() {
        return Ok(classes);
    }
    Err(CompareError::TooMany)
}

/// The classes of the packets that two versions of the tables treat differently, whatever port of these they come in
/// by. Those of one pair of actions stand together, the widest first.
pub fn compare(
    alloc: Global,
    old: &VersionedRules,
    new: &VersionedRules,
    ports: &[u16],
) -> Result<Vec<Class>, CompareError>
    requires old_edits { IsOfEdits old.now }
    requires new_edits { IsOfEdits new.now }
    requires old_runnable { AreRunnable (live_in old.now) }
    requires new_runnable { AreRunnable (live_in new.now) }
    ensures ok { IfOk result (λ v.
        IsDifference (switch_of (live_in old.now) ports.now) (switch_of (live_in new.now) ports.now)
        ports.now (classes_view v.items)) }
    ensures too_many { IfErr result (λ e. e ≡ CompareError.TooMany →
        IsUnfinished (switch_of (live_in old.now) ports.now) (switch_of (live_in new.now) ports.now) ports.now cube_limit) }
{
    let mut classes = find_classes(alloc, old, new, ports)?;
    put_in_order(&mut classes);
    Ok(classes)
}

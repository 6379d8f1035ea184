//! What two versions do to the packet of a key, and for which other packets that holds.
ghost use Rattle.std.specs.Prelude.{◌≡◌, ◌∷◌, ℕ, List, true, false, IfOk, IfSome, IsTrue};
ghost use Rattle.spec_keys.specs.Fields.{register_fields};
ghost use Rattle.spec_keys.specs.Keys.{agree, IsClean};
ghost use Rattle.spec_xlate.specs.Consulted.{without};
ghost use Rattle.spec_xlate.specs.Translation.{switch_of};
ghost use Rattle.spec_tools.specs.Classes.{IsFrameKey};
ghost use Rattle.ovs_fields.specs.Packed.{numbers, bits};
ghost use Rattle.dump_lines.specs.Live.{IsOfEdits, live_in};
ghost use Rattle.pipe_model.specs.Runnable.{AreRunnable};
ghost use Rattle.rule_changes.specs.Changes.{AreAllChanges};
ghost use Rattle.table_diff.specs.Judging.{Holds, CanPrintAll, mask_of};

use crate::actions::are_same;
use crate::apart::apart;
use crate::checking::check;
use crate::cube::Cube;
use crate::deed::Deed;
use crate::leading::lead;
use crate::proposing::propose;
use crate::sent::add_sent;
use crate::way::way_of;
use crate::ways::judge_ways;
use crate::whole::frame_bits;
use action_text::translation_is_within_fields;
use ovs_fields::Mask;
use rule_changes::Changes;
use rule_tables::VersionedRules;
use std::alloc::{AllocError, Global};
use xlate_pipeline::without_registers;

/// What is found of the packet of a key. It holds for every packet whose key agrees with that one on the mask.
#[derive(Drop)]
pub(crate) enum Judged {
    /// Both versions do the same to its frame.
    Alike(Mask),
    /// They do this.
    Differ { old: Deed, new: Deed, mask: Mask },
}

/// The bits that decide: these, but for registers, if they do, and else all.
fn deciding(decides: bool, mask: &Mask) -> Mask
    ensures decided { decides ≡ true → bits result ≡ without register_fields (bits mask.now) }
    ensures open { decides ≡ false → (a b : List ℕ) → IsFrameKey a → IsFrameKey b
        → IsTrue (agree b a (bits result)) → b ≡ a }
    ensures clean { IsClean (bits result) }
{
    if decides {
        without_registers(mask)
    } else {
        frame_bits()
    }
}

/// Judges the packet of a cube's key by all that is written over too.
fn state_all(
    alloc: Global,
    old: &VersionedRules,
    new: &VersionedRules,
    ports: &[u16],
    cube: &Cube,
) -> Result<Judged, AllocError>
    requires old_edits { IsOfEdits old.now }
    requires new_edits { IsOfEdits new.now }
    requires old_runnable { AreRunnable (live_in old.now) }
    requires new_runnable { AreRunnable (live_in new.now) }
    ensures holds { IfOk result
        (Holds (switch_of (live_in old.now) ports.now) (switch_of (live_in new.now) ports.now) (numbers cube.now.key)) }
    ensures clean { IfOk result (λ j. IsClean (mask_of j)) }
    ensures printable { IfOk result CanPrintAll }
{
    translation_is_within_fields();
    let mut mask = cube.mask;
    propose(alloc, old, ports, &cube.key, &mut mask)?;
    propose(alloc, new, ports, &cube.key, &mut mask)?;
    let (before, old_told) = check(alloc, old, ports, &cube.key, &mask)?;
    let (after, new_told) = check(alloc, new, ports, &cube.key, &mask)?;
    let mask = deciding(old_told & new_told, &mask);
    if are_same(before.actions.as_slice(), after.actions.as_slice()) {
        Ok(Judged::Alike(mask))
    } else {
        Ok(Judged::Differ {
            old: Deed::Datapath(before.actions),
            new: Deed::Datapath(after.actions),
            mask,
        })
    }
}

/// The bits of frames that a mask has.
fn stated(mask: &Mask) -> Mask
    ensures bits { bits result ≡ without register_fields (bits mask.now) }
    ensures clean { IsClean (bits result) }
{
    without_registers(mask)
}

/// Judges the packet of a cube's key by the ways that both versions lead it, if a mask tells which these are.
fn follow_by(
    alloc: Global,
    old: &VersionedRules,
    new: &VersionedRules,
    ports: &[u16],
    cube: &Cube,
    mask: &Mask,
) -> Result<Option<Judged>, AllocError>
    requires old_edits { IsOfEdits old.now }
    requires new_edits { IsOfEdits new.now }
    requires old_runnable { AreRunnable (live_in old.now) }
    requires new_runnable { AreRunnable (live_in new.now) }
    ensures holds { IfOk result (λ found. IfSome found
        (Holds (switch_of (live_in old.now) ports.now) (switch_of (live_in new.now) ports.now) (numbers cube.now.key))) }
    ensures clean { IfOk result (λ found. IfSome found (λ j. IsClean (mask_of j))) }
    ensures printable { IfOk result (λ found. IfSome found CanPrintAll) }
{
    let before = way_of(alloc, old, ports, &cube.key, mask)?;
    let after = way_of(alloc, new, ports, &cube.key, mask)?;
    judge_ways(alloc, before, after, &cube.key, stated(mask))
}

/// The same with one bit more, in which the frames that are sent may differ.
fn follow_apart(
    alloc: Global,
    old: &VersionedRules,
    new: &VersionedRules,
    ports: &[u16],
    cube: &Cube,
    mask: &Mask,
) -> Result<Option<Judged>, AllocError>
    requires old_edits { IsOfEdits old.now }
    requires new_edits { IsOfEdits new.now }
    requires old_runnable { AreRunnable (live_in old.now) }
    requires new_runnable { AreRunnable (live_in new.now) }
    ensures holds { IfOk result (λ found. IfSome found
        (Holds (switch_of (live_in old.now) ports.now) (switch_of (live_in new.now) ports.now) (numbers cube.now.key))) }
    ensures clean { IfOk result (λ found. IfSome found (λ j. IsClean (mask_of j))) }
    ensures printable { IfOk result (λ found. IfSome found CanPrintAll) }
{
    let before = way_of(alloc, old, ports, &cube.key, mask)?;
    let after = way_of(alloc, new, ports, &cube.key, mask)?;
    let mut more = *mask;
    if !add_sent(&mut more, &before, &after, &cube.key) {
        return Ok(None);
    }
    follow_by(alloc, old, new, ports, cube, &more)
}

/// Judges the packet of a cube's key by the ways that both versions lead it, if these tell.
fn follow_ways(
    alloc: Global,
    old: &VersionedRules,
    new: &VersionedRules,
    ports: &[u16],
    cube: &Cube,
) -> Result<Option<Judged>, AllocError>
    requires old_edits { IsOfEdits old.now }
    requires new_edits { IsOfEdits new.now }
    requires old_runnable { AreRunnable (live_in old.now) }
    requires new_runnable { AreRunnable (live_in new.now) }
    ensures holds { IfOk result (λ found. IfSome found
        (Holds (switch_of (live_in old.now) ports.now) (switch_of (live_in new.now) ports.now) (numbers cube.now.key))) }
    ensures clean { IfOk result (λ found. IfSome found (λ j. IsClean (mask_of j))) }
    ensures printable { IfOk result (λ found. IfSome found CanPrintAll) }
{
    let mask = lead(alloc, old, ports, &cube.key, &cube.mask)?;
    let mask = lead(alloc, new, ports, &cube.key, &mask)?;
    let found = follow_by(alloc, old, new, ports, cube, &mask)?;
    if found.is_some() {
        return Ok(found);
    }
    follow_apart(alloc, old, new, ports, cube, &mask)
}

/// Judges the packet of a cube's key by following it through both versions.
fn follow(
    alloc: Global,
    old: &VersionedRules,
    new: &VersionedRules,
    ports: &[u16],
    cube: &Cube,
) -> Result<Judged, AllocError>
    requires old_edits { IsOfEdits old.now }
    requires new_edits { IsOfEdits new.now }
    requires old_runnable { AreRunnable (live_in old.now) }
    requires new_runnable { AreRunnable (live_in new.now) }
    ensures holds { IfOk result
        (Holds (switch_of (live_in old.now) ports.now) (switch_of (live_in new.now) ports.now) (numbers cube.now.key)) }
    ensures clean { IfOk result (λ j. IsClean (mask_of j)) }
    ensures printable { IfOk result CanPrintAll }
{
    match follow_ways(alloc, old, new, ports, cube)? {
        Some(judged) => Ok(judged),
        None => state_all(alloc, old, new, ports, cube),
    }
}

/// Judges the packet of a cube's key.
pub(crate) fn judge(
    alloc: Global,
    old: &VersionedRules,
    new: &VersionedRules,
    ports: &[u16],
    changes: &Changes,
    cube: &Cube,
) -> Result<Judged, AllocError>
    requires old_edits { IsOfEdits old.now }
    requires new_edits { IsOfEdits new.now }
    requires old_runnable { AreRunnable (live_in old.now) }
    requires new_runnable { AreRunnable (live_in new.now) }
    requires changes { AreAllChanges (live_in old.now) (live_in new.now) changes.now }
    ensures holds { IfOk result
        (Holds (switch_of (live_in old.now) ports.now) (switch_of (live_in new.now) ports.now) (numbers cube.now.key)) }
    ensures clean { IfOk result (λ j. IsClean (mask_of j)) }
    ensures printable { IfOk result CanPrintAll }
{
    match apart(changes, cube) {
        Some(mask) => Ok(Judged::Alike(mask)),
        None => follow(alloc, old, new, ports, cube),
    }
}

//! Two versions' ways of one packet, held against each other.
ghost use Rattle.std.specs.Prelude.{◌≡◌, ◌≢◌, ◌||◌, ◌++◌, [], ◌∷◌, ℕ, List, true, false, IfOk, IfSome, OnOk};
ghost use Rattle.spec_xlate.specs.Translation as xlate;
ghost use Rattle.ovs_fields.specs.Packed.{numbers, bits};
ghost use Rattle.table_diff.specs.Sending.{ports_in};
ghost use Rattle.table_diff.specs.Ways.{IsWay, IsKnown, ForWays, IsDeed, IsFound, AreLedAlike};
ghost use Rattle.table_diff.specs.Judging.{DoOtherwise};

use crate::actions::are_same;
use crate::deed::Deed;
use crate::judging::Judged;
use crate::sent::are_sent_otherwise;
use crate::way::Way;
use dp_actions::DpAction;
use ovs_fields::{Key, Mask};
use rule_changes::are_same_actions;
use std::alloc::{AllocError, Global};

/// Adds the port that a datapath action sends to, if it sends. The only error is out of memory.
fn add_port(ports: &mut Vec<u16>, action: &DpAction) -> Result<(), AllocError>
    ensures { OnOk result (ports.new.items ≡ ports.old.items ++ ports_in (action.now ∷ [])) }
{
    match action {
        DpAction::Output(port) => {
            ports.push(*port)?;
            Ok(())
        }
        DpAction::PopVlan => Ok(()),
        DpAction::PushVlan { .. } => Ok(()),
        DpAction::Set { .. } => Ok(()),
    }
}

/// The ports that datapath actions send to, one after the other. The only error is out of memory.
fn ports_of(alloc: Global, actions: &[DpAction]) -> Result<Vec<u16>, AllocError>
    ensures { IfOk result (λ v. v.items ≡ ports_in actions.now) }
{
    let mut ports = Vec::new(alloc);
    'actions: for action in actions {
        add_port(&mut ports, action)?;
    }
    Ok(ports)
}

/// Whether two lists of datapath actions send to the same ports. The only error is out of memory.
fn send_alike(alloc: Global, a: &[DpAction], b: &[DpAction]) -> Result<bool, AllocError>
    ensures { IfOk result (λ same. same ≡ false → ports_in a.now ≢ ports_in b.now) }
{
    let first = ports_of(alloc, a)?;
    let second = ports_of(alloc, b)?;
    Ok(first.as_slice() == second.as_slice())
}

/// Whether nothing is done.
pub(crate) fn is_none(actions: &[DpAction]) -> bool
    ensures none { result ≡ true → actions.now ≡ [] }
    ensures some { result ≡ false → actions.now ≢ [] }
{
    actions.is_empty()
}

/// Whether nothing is done on either way.
fn do_nothing(old: &Way, new: &Way) -> bool
    ensures old { result ≡ true → old.now.actions ≡ [] }
    ensures new { result ≡ true → new.now.actions ≡ [] }
{
    is_none(old.actions.as_slice()) & is_none(new.actions.as_slice())
}

/// Whether both ways lead to the same flow actions, by which something is done.
fn are_led_alike(old: &Way, new: &Way) -> bool
    ensures { result ≡ true → AreLedAlike old.now new.now }
{
    let some = !is_none(old.actions.as_slice()) & !is_none(new.actions.as_slice());
    let same = are_same_actions(old.path.as_slice(), new.path.as_slice());
    (old.fine & new.fine) & (some & same)
}

/// What is said of such a way, in flow actions where its datapath actions aren't the same for all packets. It takes no
/// memory.
fn deed_of(way: Way) -> Deed
    ensures { (sw : xlate.Switch) (key mask : List ℕ) → (way.told || way.fine) ≡ true → IsWay sw key mask way
        → IsDeed sw key mask result }
{
    let nothing = is_none(way.actions.as_slice());
    if way.told | nothing {
        Deed::Datapath(way.actions)
    } else {
        Deed::Flow(way.path)
    }
}

/// Packets to which not the same is done. It takes no memory.
fn differ(old: Way, new: Way, mask: Mask) -> Judged
    ensures { let m = bits mask in (o n : xlate.Switch) (key : List ℕ) → IsWay o key m old → IsWay n key m new
        → IsKnown old → IsKnown new → DoOtherwise o n key m → IsFound o n key m result }
{
    Judged::Differ {
        old: deed_of(old),
        new: deed_of(new),
        mask,
    }
}

/// What is found where the same is done to all packets on either way. It takes no memory.
fn judge_told(old: Way, new: Way, mask: Mask) -> Judged
    ensures { (o n : xlate.Switch) (key : List ℕ) → o.ports ≡ n.ports
        → IsWay o key (bits mask) old → IsWay n key (bits mask) new
        → old.told ≡ true → new.told ≡ true → IsFound o n key (bits mask) result }
{
    if are_same(old.actions.as_slice(), new.actions.as_slice()) {
        Judged::Alike(mask)
    } else {
        differ(old, new, mask)
    }
}

/// What is found by the ports that packets are sent to, if these differ. The only error is out of memory.
fn judge_by_ports(
    alloc: Global,
    old: Way,
    new: Way,
    mask: Mask,
) -> Result<Option<Judged>, AllocError>
    ensures { IfOk result (λ found. IfSome found (λ judged. (key : List ℕ) → ForWays key (bits mask) old new
        (λ o n. IsKnown old → IsKnown new → IsFound o n key (bits mask) judged))) }
{
    let same = send_alike(alloc, old.actions.as_slice(), new.actions.as_slice())?;
    if same {
        return Ok(None);
    }
    Ok(Some(differ(old, new, mask)))
}

/// What is found by two ways on which it is known what is done. The only error is out of memory.
fn judge_sure(
    alloc: Global,
    old: Way,
    new: Way,
    key: &Key,
    mask: Mask,
) -> Result<Option<Judged>, AllocError>
    ensures { IfOk result (λ found. IfSome found (λ judged. ForWays (numbers key.now) (bits mask) old new
        (λ o n. IsKnown old → IsKnown new → IsFound o n (numbers key.now) (bits mask) judged))) }
{
    if do_nothing(&old, &new) {
        return Ok(Some(Judged::Alike(mask)));
    }
    if are_led_alike(&old, &new) {
        return Ok(Some(Judged::Alike(mask)));
    }
    if old.told & new.told {
        return Ok(Some(judge_told(old, new, mask)));
    }
    if are_sent_otherwise(&old, &new, key) {
        return Ok(Some(differ(old, new, mask)));
    }
    judge_by_ports(alloc, old, new, mask)
}

/// What is found of all packets that agree on a mask by the ways of one of them, if these tell. The only error is out
/// of memory.
pub(crate) fn judge_ways(
    alloc: Global,
    old: Way,
    new: Way,
    key: &Key,
    mask: Mask,
) -> Result<Option<Judged>, AllocError>
    ensures { IfOk result (λ found. IfSome found (λ judged. ForWays (numbers key.now) (bits mask) old new
        (λ o n. IsFound o n (numbers key.now) (bits mask) judged))) }
{
    if !((old.told | old.fine) & (new.told | new.fine)) {
        return Ok(None);
    }
    judge_sure(alloc, old, new, key, mask)
}

//! Lists of actions run on a frame.
ghost use Rattle.std.specs.Prelude.{◌≡◌, ◌+◌, ◌*◌, ◌≤◌, ◌↔◌, count_by, All, IsTrue, IfOk, OnOk, OnErr};
ghost use Rattle.std.specs.List.{FoldsTo};
ghost use Rattle.std.specs.Vec.{vec_len, vec_capacity};
ghost use Rattle.spec_frames.specs.Ethernet.{tag_size};
ghost use Rattle.spec_exec.specs.Sent.{is_output, sent};
ghost use Rattle.action_exec.specs.Visits.{is_push, IsVisitedAt};

use crate::buffer::run_action;
use crate::tag::TAG_SIZE;
use spec_actions::DpAction;
use std::alloc::{AllocError, Global};

fn is_push(action: &DpAction) -> bool
    ensures { result ≡ is_push action.now }
{
    matches!(action, DpAction::PushVlan { .. })
}

/// Whether an action sends.
pub fn is_output(action: &DpAction) -> bool
    ensures { result ≡ is_output action.now }
{
    matches!(action, DpAction::Output(_))
}

/// Visits the pieces of a list of outputs alone.
fn visit_outputs<F: FnMut(u16, &[u8])>(list: &[DpAction], frame: &[u8], visit: &mut F)
    requires callable { F.IsAlwaysCallable visit.old }
    requires outputs { All (λ a. IsTrue (is_output a)) list.now }
    ensures { FoldsTo (IsVisitedAt F.FnMut) visit.old (sent list.now frame.now) visit.new }
{
    let mut rest = list;
    'actions: while let Some((action, tail)) = rest.split_first() {
        if let DpAction::Output(port) = action {
            visit(*port, frame);
        }
        rest = tail;
    }
}

/// Visits the pieces of a list, for whose tags there is room.
fn visit_pieces<F: FnMut(u16, &[u8])>(list: &[DpAction], frame: &mut Vec<u8>, visit: &mut F)
    requires callable { F.IsAlwaysCallable visit.old }
    requires room { vec_len frame.old + tag_size * count_by is_push list.now ≤ vec_capacity frame.old }
    ensures { FoldsTo (IsVisitedAt F.FnMut) visit.old (sent list.now frame.old.items) visit.new }
{
    let mut rest = list;
    'actions: while let Some((action, tail)) = rest.split_first() {
        if let DpAction::Output(port) = action {
            visit(*port, frame);
        } else {
            let ran = run_action(frame, action);
            prove!(ran.is_ok());
        }
        rest = tail;
    }
}

/// How many bytes the tags of a list have.
fn room_for(list: &[DpAction]) -> usize
    ensures { result ≡ tag_size * count_by is_push list.now }
{
    TAG_SIZE * list.iter().filter(|action| is_push(action)).count()
}

/// Whether a list has outputs alone.
fn are_outputs(list: &[DpAction]) -> bool
    ensures { IsTrue result ↔ All (λ a. IsTrue (is_output a)) list.now }
{
    list.iter().all(is_output)
}

/// A copy of a frame, with room for the tags of a list.
fn working_copy(alloc: Global, list: &[DpAction], frame: &[u8]) -> Result<Vec<u8>, AllocError>
    ensures items { IfOk result (λ v. v.items ≡ frame.now) }
    ensures room { IfOk result (λ v. vec_len v + tag_size * count_by is_push list.now ≤ vec_capacity v) }
{
    let mut copy = Vec::with_capacity(alloc, frame.len() + room_for(list))?;
    copy.extend_from_slice(frame)?;
    Ok(copy)
}

/// Visits the pieces of a frame under a list of actions (ovs-actions(7)): with the port and the bytes of each output,
/// in order.
///
/// A list of outputs alone copies nothing. Any other copies the frame first, with room for all tags that are pushed, so
/// that nothing was visited where memory is refused, which is the only error.
pub fn execute<F: FnMut(u16, &[u8])>(
    alloc: Global,
    list: &[DpAction],
    frame: &[u8],
    visit: &mut F,
) -> Result<(), AllocError>
    requires { F.IsAlwaysCallable visit.old }
    ensures ok { OnOk result (FoldsTo (IsVisitedAt F.FnMut) visit.old (sent list.now frame.now) visit.new) }
    ensures err { OnErr result (visit.new ≡ visit.old) }
{
    if are_outputs(list) {
        visit_outputs(list, frame, visit);
        return Ok(());
    }
    let mut copy = working_copy(alloc, list, frame)?;
    visit_pieces(list, &mut copy, visit);
    Ok(())
}

//! A frame that actions rewrite.
ghost use Rattle.std.specs.Prelude.{◌≡◌, ◌+◌, ◌≤◌, [], length, OnOk, OnErr, IsOk};
ghost use Rattle.std.specs.Vec.{vec_len, vec_capacity};
ghost use Rattle.spec_frames.specs.Ethernet.{tag_size};
ghost use Rattle.spec_exec.specs.Rewriting.{after_action};
ghost use Rattle.action_exec.specs.Visits.{growth};

use crate::field::set_field;
use crate::tag::{pop_tag, push_tag};
use frame_keys::headers::HEADER_SIZE;
use spec_actions::DpAction;
use std::alloc::{AllocError, Global};
use std::marker::Model;

/// Runs an action on a frame. The only error is out of memory, for the tag of a push, and then the frame is as before.
#[tactic(auto, unfolding(spec_exec::specs::Rewriting::after_action))]
pub(crate) fn run_action(frame: &mut Vec<u8>, action: &DpAction) -> Result<(), AllocError>
    ensures ok { OnOk result (frame.new.items ≡ after_action action.now frame.old.items) }
    ensures err { OnErr result (frame.new.items ≡ frame.old.items) }
    ensures grows { length frame.new.items ≤ length frame.old.items + tag_size }
    ensures room { vec_len frame.old + growth action.now ≤ vec_capacity frame.old → IsOk result }
    ensures len { vec_len frame.new ≤ vec_len frame.old + growth action.now }
    ensures capacity { vec_capacity frame.old ≤ vec_capacity frame.new }
{
    if frame.len() < HEADER_SIZE {
        return Ok(());
    }
    match action {
        DpAction::Output(_) => Ok(()),
        DpAction::PopVlan => {
            pop_tag(frame);
            Ok(())
        }
        DpAction::PushVlan { tpid, tci } => push_tag(frame, *tpid, *tci),
        DpAction::Set { field, value, mask } => {
            set_field(frame, *field, *value, *mask);
            Ok(())
        }
    }
}

/// A frame in a buffer of its own, which actions rewrite. The buffer is kept from frame to frame.
#[derive(Drop)]
pub struct FrameBuffer(Vec<u8>);

impl Model for FrameBuffer {
    ghost use Rattle.std.specs.Prelude.{ℕ, List};

    ghost Value = { List ℕ };

    ghost view = { λ f. f.0.items };
}

impl FrameBuffer {
    /// A frame of no bytes. It takes no memory.
    pub fn new(alloc: Global) -> FrameBuffer
        ensures { result ≡ [] }
    {
        FrameBuffer(Vec::new(alloc))
    }

    /// Takes a frame in, in place of the one before. The only error is out of memory, and then there is a frame of no
    /// bytes.
    pub fn load(&mut self, frame: &[u8]) -> Result<(), AllocError>
        ensures ok { OnOk result (self.new ≡ frame.now) }
        ensures err { OnErr result (self.new ≡ []) }
    {
        self.0.clear();
        self.0.extend_from_slice(frame)?;
        Ok(())
    }

    /// Runs an action on the frame (ovs-actions(7)), its checksums included (RFC 1624). An output changes nothing.
    ///
    /// A frame that is shorter than an Ethernet header stays as it is. So does one that lacks the header of the field
    /// that is set. The only error is out of memory, where a tag is pushed, and then the frame is as before.
    pub fn apply(&mut self, action: &DpAction) -> Result<(), AllocError>
        ensures ok { OnOk result (self.new ≡ after_action action.now self.old) }
        ensures err { OnErr result (self.new ≡ self.old) }
        ensures grows { length self.new ≤ length self.old + tag_size }
    {
        run_action(&mut self.0, action)
    }

    /// The bytes of the frame.
    pub fn as_slice(&self) -> &[u8]
        ensures { result.now ≡ self.now }
    {
        self.0.as_slice()
    }
}

//! A frame sent out at one of some ports: once, as it first goes out there.
ghost use Rattle.std.specs.Prelude.{◌≡◌, ◌+◌, ◌*◌, ◌/◌, ◌<◌, ◌≤◌, ◌^◌, not, length, OnOk};
ghost use Rattle.std.specs.List.{list_all, take_while};
ghost use Rattle.spec_pcap.specs.Pcap.{second, snap_length};
ghost use Rattle.spec_frames.specs.Ethernet.{tag_size};
ghost use Rattle.spec_xlate.specs.Translation.{action_limit};
ghost use Rattle.spec_exec.specs.Sent.{is_output};
ghost use Rattle.edge_io.specs.declared.outside.InUse.TheVariants.{Created};
ghost use Rattle.edge_io.specs.Written.{WritesAll};
ghost use Rattle.egress_capture.specs.Sending.{sends_to_one, first_frame_to, record_if, next, rewritten};

use action_exec::{FrameBuffer, is_output};
use edge_io::{Failed, Shelf};
use pcap_files::writer::PcapWriter;
use spec_actions::DpAction;
use std::alloc::AllocError;

fn is_output_to_one(action: &DpAction, ports: &[u16]) -> bool
    ensures { result ≡ sends_to_one ports.now action.now }
{
    match action {
        DpAction::Output(number) => ports.contains(number),
        _ => false,
    }
}

// How many actions stand before the first output to one of these ports.
fn before_output(actions: &[DpAction], ports: &[u16]) -> usize
    ensures { result
        ≡ length (take_while (λ action. not (sends_to_one ports.now action)) actions.now) }
{
    actions
        .iter()
        .take_while(|action| !is_output_to_one(action, ports))
        .count()
}

fn only_send(actions: &[DpAction]) -> bool
    ensures { result ≡ list_all is_output actions.now }
{
    actions.iter().all(|action| is_output(action))
}

// Runs an action on a frame in the buffer. Sending leaves it as it is.
#[tactic(auto, unfolding(crate::specs::Sending::next))]
fn rewrite_by(frame: &mut FrameBuffer, action: &DpAction) -> Result<(), AllocError>
    ensures frame { OnOk result (frame.new ≡ next action.now frame.old) }
    ensures grows { OnOk result (length frame.new ≤ length frame.old + tag_size) }
{
    if is_output(action) {
        return Ok(());
    }
    frame.apply(action)
}

// Rewrites a frame in the buffer by these actions.
fn rewrite(frame: &mut FrameBuffer, actions: &[DpAction]) -> Result<(), AllocError>
    ensures frame { OnOk result (frame.new ≡ rewritten actions.now frame.old) }
    ensures grows { OnOk result
        (length frame.new ≤ length frame.old + length actions.now * tag_size) }
{
    'actions: for action in actions {
        rewrite_by(frame, action)?;
    }
    Ok(())
}

/// Writes a frame as it first goes out at one of these ports, if it goes out at one: once, as the actions before that
/// have rewritten it.
///
/// Actions that only send copy nothing. The others work in the buffer, which takes memory where it has to grow.
pub fn send_first<S: Shelf>(
    shelf: &mut S,
    writer: &mut PcapWriter,
    time: u64,
    bytes: &[u8],
    actions: &[DpAction],
    ports: &[u16],
    buffer: &mut FrameBuffer,
) -> Result<(), Failed>
    requires in_use { S.in_use shelf.old ≡ Created }
    requires seconds { time / second < 2 ^ 32 }
    requires len { length bytes.now ≤ snap_length }
    requires few { length actions.now ≤ action_limit }
    ensures nanos { writer.new ≡ writer.old }
    ensures writes { let frame = first_frame_to ports.now time actions.now bytes.now in
        WritesAll S.Shelf shelf.old shelf.new (record_if writer.old frame) result }
{
    let (before, others) = actions.split_at(before_output(actions, ports));
    if others.is_empty() {
        return Ok(());
    }
    if only_send(before) {
        return writer.frame(shelf, time, bytes);
    }
    buffer.load(bytes)?;
    rewrite(buffer, before)?;
    writer.frame(shelf, time, buffer.as_slice())
}

//! A frame sent out at one port, as often as its actions say, and as they then have it.
ghost use Rattle.std.specs.Prelude.{◌≡◌, ◌+◌, ◌/◌, ◌<◌, ◌≤◌, ◌^◌, [], ◌∷◌, length, replicate, count_by, OnOk};
ghost use Rattle.std.specs.List.{flat_map, take_while};
ghost use Rattle.spec_pcap.specs.Pcap.{record_of, second, snap_length};
ghost use Rattle.spec_frames.specs.Ethernet.{tag_size};
ghost use Rattle.spec_xlate.specs.Translation.{action_limit};
ghost use Rattle.spec_exec.specs.Sent.{is_output};
ghost use Rattle.edge_io.specs.declared.outside.InUse.TheVariants.{Created};
ghost use Rattle.edge_io.specs.Written.{WritesAll};
ghost use Rattle.egress_capture.specs.Sending.{sends_to, frame_of, frames_to, next};

use action_exec::{FrameBuffer, is_output};
use edge_io::{Failed, Shelf};
use pcap_files::writer::PcapWriter;
use spec_actions::DpAction;

fn is_output_to(action: &DpAction, port: u16) -> bool
    ensures { result ≡ sends_to port action.now }
{
    match action {
        DpAction::Output(number) => *number == port,
        _ => false,
    }
}

// How often a frame with these actions goes out at a port.
fn copies(actions: &[DpAction], port: u16) -> usize
    ensures { result ≡ count_by (sends_to port) actions.now }
{
    actions
        .iter()
        .filter(|action| is_output_to(action, port))
        .count()
}

// How many outputs stand before the first action that rewrites the frame.
fn outputs_first(actions: &[DpAction]) -> usize
    ensures { result ≡ length (take_while is_output actions.now) }
{
    actions
        .iter()
        .take_while(|action| is_output(action))
        .count()
}

// Writes a frame so many times.
fn send_copies<S: Shelf>(
    shelf: &mut S,
    writer: &mut PcapWriter,
    time: u64,
    bytes: &[u8],
    copies: usize,
) -> Result<(), Failed>
    requires in_use { S.in_use shelf.old ≡ Created }
    requires seconds { time / second < 2 ^ 32 }
    requires len { length bytes.now < 2 ^ 32 }
    ensures nanos { writer.new ≡ writer.old }
    ensures writes { let records = flat_map (record_of writer.old) (replicate copies (frame_of time bytes.now)) in
        WritesAll S.Shelf shelf.old shelf.new records result }
{
    'copies: for copy in 0..copies {
        writer.frame(shelf, time, bytes)?;
    }
    Ok(())
}

// Runs an action on a frame in the buffer, which is written where the action sends it out at the port.
#[tactic(auto, unfolding(crate::specs::Sending::next))]
fn run_action<S: Shelf>(
    shelf: &mut S,
    writer: &mut PcapWriter,
    time: u64,
    frame: &mut FrameBuffer,
    action: &DpAction,
    port: u16,
) -> Result<(), Failed>
    requires in_use { S.in_use shelf.old ≡ Created }
    requires seconds { time / second < 2 ^ 32 }
    requires len { length frame.old < 2 ^ 32 }
    ensures nanos { writer.new ≡ writer.old }
    ensures frame { OnOk result (frame.new ≡ next action.now frame.old) }
    ensures grows { OnOk result (length frame.new ≤ length frame.old + tag_size) }
    ensures writes { let records = flat_map (record_of writer.old) (frames_to port time (action.now ∷ []) frame.old) in
        WritesAll S.Shelf shelf.old shelf.new records result }
{
    if is_output_to(action, port) {
        writer.frame(shelf, time, frame.as_slice())
    } else if is_output(action) {
        Ok(())
    } else {
        frame.apply(action)?;
        Ok(())
    }
}

// Writes a frame, a copy of which stands in the buffer, as its actions rewrite it and send it out at the port.
fn send_rewritten<S: Shelf>(
    shelf: &mut S,
    writer: &mut PcapWriter,
    time: u64,
    frame: &mut FrameBuffer,
    actions: &[DpAction],
    port: u16,
) -> Result<(), Failed>
    requires in_use { S.in_use shelf.old ≡ Created }
    requires seconds { time / second < 2 ^ 32 }
    requires len { length frame.old ≤ snap_length }
    requires few { length actions.now ≤ action_limit }
    ensures nanos { writer.new ≡ writer.old }
    ensures writes { let records = flat_map (record_of writer.old) (frames_to port time actions.now frame.old) in
        WritesAll S.Shelf shelf.old shelf.new records result }
{
    'actions: for action in actions {
        run_action(shelf, writer, time, frame, action, port)?;
    }
    Ok(())
}

/// Writes a frame as often as its actions send it out at the port, each time as those before have rewritten it.
///
/// Actions that only send copy nothing. The others work in the buffer, which takes memory where it has to grow.
pub fn send<S: Shelf>(
    shelf: &mut S,
    writer: &mut PcapWriter,
    time: u64,
    bytes: &[u8],
    actions: &[DpAction],
    port: u16,
    buffer: &mut FrameBuffer,
) -> Result<(), Failed>
    requires in_use { S.in_use shelf.old ≡ Created }
    requires seconds { time / second < 2 ^ 32 }
    requires len { length bytes.now ≤ snap_length }
    requires few { length actions.now ≤ action_limit }
    ensures nanos { writer.new ≡ writer.old }
    ensures writes { let records = flat_map (record_of writer.old) (frames_to port time actions.now bytes.now) in
        WritesAll S.Shelf shelf.old shelf.new records result }
{
    let (outputs, others) = actions.split_at(outputs_first(actions));
    send_copies(shelf, writer, time, bytes, copies(outputs, port))?;
    if copies(others, port) == 0 {
        return Ok(());
    }
    buffer.load(bytes)?;
    send_rewritten(shelf, writer, time, buffer, others, port)
}

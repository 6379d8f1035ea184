//! The frames, and the record of each.
ghost use Rattle.std.specs.Prelude.{◌≡◌, ◌++◌, ◌<◌, ◌^◌, ◌/◌, false, OnOk};
ghost use Rattle.std.specs.List.{flat_map};
ghost use Rattle.spec_base.specs.Bytes.{big_endian};
ghost use Rattle.spec_pcap.specs.Pcap.{record_of, second};
ghost use Rattle.spec_input.specs.Made.{addressed, state, frame_draws};
ghost use Rattle.trace_gen.specs.Drawn.{IsPacket, IsInRange, captured_at};

use crate::draws::Draws;
use net_bytes::checksum_of;
use pcap_files::format::record_header;
use std::alloc::AllocError;

// From 02:00:00:00:00:01 to 02:00:00:00:00:02, with a packet of IPv4.
const ETHERNET_HEADER: [u8; 14] = [2, 0, 0, 0, 0, 2, 2, 0, 0, 0, 0, 1, 8, 0];

const HEADER_WORDS: usize = 10;

/// How many bytes a frame has: the headers of Ethernet, IPv4 and UDP.
pub const FRAME_LENGTH: u32 = 42;

/// What is drawn for a packet from 10.0.0.(1 + source) to 10.C.D.E.
#[derive(Clone, Copy)]
pub struct Packet {
    source: u16,
    c: u16,
    d: u16,
    e: u16,
    /// The source port is 1000 + port.
    port: u16,
}

/// Draws a packet.
#[tactic(auto, unfolding(spec_input::specs::Made::state))]
pub fn draw_packet(draws: &mut Draws) -> Packet
    ensures packet { IsPacket draws.old.state result }
    ensures range { IsInRange result }
    ensures state { draws.new.state ≡ state draws.old.state frame_draws }
{
    let source = (draws.next() % 200) as u16;
    let c = (draws.next() % 4) as u16;
    let d = (draws.next() % 16) as u16;
    let e = (draws.next() % 256) as u16;
    let port = (draws.next() % 1000) as u16;
    Packet {
        source,
        c,
        d,
        e,
        port,
    }
}

// The words of the header of IPv4 (RFC 791).
fn header_words(packet: Packet, sum: u16) -> [u16; HEADER_WORDS]
    requires { IsInRange packet }
    ensures { result ≡ addressed packet.source packet.c packet.d packet.e sum }
{
    [
        0x4500,
        28,
        0,
        0,
        0x4011,
        sum,
        0x0a00,
        1 + packet.source,
        0x0a00 + packet.c,
        packet.d * 0x100 + packet.e,
    ]
}

fn push_words(bytes: &mut Vec<u8>, words: &[u16]) -> Result<(), AllocError>
    ensures { OnOk result (bytes.new.items ≡ bytes.old.items ++ flat_map (big_endian 2) words.now) }
{
    'words: for word in words {
        bytes.extend_from_slice(&word.to_be_bytes())?;
    }
    Ok(())
}

/// Adds the record of a packet that was captured at a time, in nanoseconds since the beginning of 1970 (UTC).
pub fn push_record(bytes: &mut Vec<u8>, time: u64, packet: Packet) -> Result<(), AllocError>
    requires seconds { time / second < 2 ^ 32 }
    requires range { IsInRange packet }
    ensures { OnOk result (bytes.new.items ≡ bytes.old.items
        ++ record_of false (captured_at time packet)) }
{
    let sum = checksum_of(&header_words(packet, 0));
    bytes.extend_from_slice(&record_header(false, time, FRAME_LENGTH))?;
    bytes.extend_from_slice(&ETHERNET_HEADER)?;
    push_words(bytes, &header_words(packet, sum))?;
    push_words(bytes, &[1000 + packet.port, 53, 8, 0])?;
    Ok(())
}

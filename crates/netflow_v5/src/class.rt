//! By which numbers packets belong to one flow. They are read where the headers stand that say them, and no other field of
//! the packet's key is made.
ghost use Rattle.std.specs.Prelude.{◌≡◌, ◌+◌, ◌≤◌, length};
ghost use Rattle.spec_frames.specs.declared.layout.L3.TheVariants.{Ipv4};
ghost use Rattle.spec_frames.specs.Ipv4.{least_header_size, fragment};
ghost use Rattle.spec_frames.specs.Layout.{layout_of};
ghost use Rattle.spec_frames.specs.Key.{shown, key_of};
ghost use Rattle.spec_netflow.specs.Flows.{class_of};
ghost use Rattle.frame_keys.specs.Within.{IsBefore};
ghost use Rattle.frame_keys.specs.Laid.{AreBefore};
ghost use Rattle.netflow_v5.specs.Views.{source_in, destination_in, class_view};

use frame_keys::layout::{L4, Layout};
use net_bytes::{be16, be32};

/// Where the parts of a header of IPv4 stand (RFC 791, 3.1).
const TOS_AT: usize = 1;

const FRAGMENT_AT: usize = 6;

const PROTOCOL_AT: usize = 9;

const SOURCE_AT: usize = 12;

const DESTINATION_AT: usize = 16;

/// The flag that more fragments follow, and the bits of the fragment's offset.
const MORE_FRAGMENTS: u16 = 0x2000;

const OFFSET_BITS: u16 = 0x1fff;

/// How many bytes a port of TCP or UDP has. That of the source comes first.
const PORT_SIZE: usize = 2;

/// What the packets of a flow have in common.
#[derive(Clone, Copy, PartialEq, Eq, Hash)]
pub(crate) struct FlowClass {
    pub(crate) in_port: u16,
    pub(crate) nw_src: u32,
    pub(crate) nw_dst: u32,
    pub(crate) nw_proto: u8,
    pub(crate) nw_tos: u8,
    pub(crate) tp_src: u16,
    pub(crate) tp_dst: u16,
}

// The transport header that a packet shows: a fragment shows none.
fn shown(frame: &[u8], at: usize, header: L4) -> L4
    requires { at + least_header_size ≤ length frame.now }
    ensures { result ≡ shown (fragment frame.now at) header }
{
    let flags = be16(frame, at + FRAGMENT_AT);
    if flags & OFFSET_BITS == 0 && flags & MORE_FRAGMENTS == 0 {
        header
    } else {
        L4::None
    }
}

// The ports of a transport header, or the type and the code of ICMP; 0 where there is none.
fn ports_in(frame: &[u8], header: L4) -> (u16, u16)
    requires { IsBefore (length frame.now) header }
    ensures source { result.0 ≡ source_in frame.now header }
    ensures destination { result.1 ≡ destination_in frame.now header }
{
    match header {
        L4::None => (0, 0),
        L4::Tcp(at) | L4::Udp(at) => (be16(frame, at), be16(frame, at + PORT_SIZE)),
        L4::Icmp(at) | L4::Icmp6(at) => (u16::from(frame[at]), u16::from(frame[at + 1])),
    }
}

impl FlowClass {
    /// The class of the packet of a frame that came in at a port and has these headers, with IPv4 at an offset.
    pub(crate) fn of_packet(port: u16, frame: &[u8], layout: &Layout, at: usize) -> FlowClass
        requires layout { layout.now ≡ layout_of frame.now }
        requires within { AreBefore (length frame.now) layout.now }
        requires ipv4 { layout.now.l3 ≡ Ipv4 at }
        ensures { class_view result ≡ class_of (key_of port frame.now) }
    {
        let (tp_src, tp_dst) = ports_in(frame, shown(frame, at, layout.l4));
        FlowClass {
            in_port: port,
            nw_src: be32(frame, at + SOURCE_AT),
            nw_dst: be32(frame, at + DESTINATION_AT),
            nw_proto: frame[at + PROTOCOL_AT],
            nw_tos: frame[at + TOS_AT],
            tp_src,
            tp_dst,
        }
    }
}

//! A flow, and that of one packet alone.
ghost use Rattle.std.specs.Prelude.{◌≡◌, ◌≤◌, ◌<◌, length};
ghost use Rattle.spec_keys.specs.Protocols.{icmp_protocol};
ghost use Rattle.spec_frames.specs.declared.layout.L3.TheVariants.{Ipv4};
ghost use Rattle.spec_frames.specs.Layout.{layout_of};
ghost use Rattle.spec_netflow.specs.Flows.{first_output, control_bits, alone};
ghost use Rattle.frame_keys.specs.Within.{IsBefore};
ghost use Rattle.frame_keys.specs.Laid.{AreBefore};
ghost use Rattle.netflow_v5.specs.Views.{HasNumbers, told_source, told_destination, flow_view};

use crate::class::FlowClass;
use frame_keys::layout::{L4, Layout};
use net_bytes::be16;
use spec_actions::DpAction;
use spec_netflow::FlowRecord;

/// Where the total length stands in a header of IPv4 (RFC 791, 3.1).
const TOTAL_LENGTH_AT: usize = 2;

/// Where the control bits stand in a header of TCP (RFC 9293, 3.1).
const CONTROL_BITS_AT: usize = 13;

/// The number of ICMP (Protocol Numbers of IANA).
const ICMP: u8 = 1;

/// Packets of one class, and what is told of them.
#[derive(Clone, Copy)]
pub(crate) struct Flow {
    pub(crate) class: FlowClass,
    pub(crate) told: FlowRecord,
}

// The port of the first output, or 0.
#[tactic(auto, unfolding(spec_netflow::specs::Flows::first_output))]
fn first_output(actions: &[DpAction]) -> u16
    ensures { result ≡ first_output actions.now }
{
    'actions: for action in actions {
        if let DpAction::Output(port) = action {
            return *port;
        }
    }
    0
}

// The control bits of a TCP header, or 0.
fn control_bits(frame: &[u8], header: L4) -> u8
    requires { IsBefore (length frame.now) header }
    ensures { result ≡ control_bits frame.now header }
{
    match header {
        L4::Tcp(at) => frame[at + CONTROL_BITS_AT],
        L4::None | L4::Udp(_) | L4::Icmp(_) | L4::Icmp6(_) => 0,
    }
}

// The port of the source that is told of a class.
fn told_source(class: &FlowClass) -> u16
    ensures { result ≡ told_source class.now }
{
    if class.nw_proto == ICMP {
        0
    } else {
        class.tp_src
    }
}

// The port of the destination that is told of a class: for ICMP the type and the code, of 8 bits each.
fn told_destination(class: &FlowClass) -> u16
    requires { HasNumbers class.now }
    ensures { result ≡ told_destination class.now }
{
    if class.nw_proto == ICMP {
        class.tp_src * 256 + class.tp_dst
    } else {
        class.tp_dst
    }
}

/// The flow of one packet alone: of a frame that came in at a port and an uptime, and has these headers, with IPv4 at
/// an offset.
pub(crate) fn alone(
    actions: &[DpAction],
    port: u16,
    uptime: u32,
    frame: &[u8],
    layout: &Layout,
    at: usize,
) -> Flow
    requires layout { layout.now ≡ layout_of frame.now }
    requires within { AreBefore (length frame.now) layout.now }
    requires ipv4 { layout.now.l3 ≡ Ipv4 at }
    ensures flow { flow_view result ≡ alone actions.now port uptime frame.now at }
    ensures octets { result.told.packets ≤ result.told.octets }
{
    let class = FlowClass::of_packet(port, frame, layout, at);
    Flow {
        class,
        told: FlowRecord {
            src: class.nw_src,
            dst: class.nw_dst,
            input: port,
            output: first_output(actions),
            packets: 1,
            octets: u32::from(be16(frame, at + TOTAL_LENGTH_AT)),
            first: uptime,
            last: uptime,
            sport: told_source(&class),
            dport: told_destination(&class),
            flags: control_bits(frame, layout.l4),
            proto: class.nw_proto,
            tos: class.nw_tos,
        },
    }
}

//! The transport header after an IP header: TCP (RFC 9293), UDP (RFC 768), ICMP over IPv4 (RFC 792) and ICMPv6 over
//! IPv6 (RFC 4443).
ghost use Rattle.std.specs.Prelude.{◌≡◌, ◌<◌, if◌then◌else◌};
ghost use Rattle.spec_keys.specs.Protocols.{icmp_protocol, icmp6_protocol};
ghost use Rattle.spec_frames.specs.Transport.{icmp_size, icmp6_size, carries, tcp_or_udp, unless_later, transport};
ghost use Rattle.frame_keys.specs.Within.{end_of, IsBefore};

use spec_frames::{Datagram, Fragment, L4, Network};

/// Protocols of IP (Protocol Numbers of IANA).
const ICMP_PROTOCOL: u8 = 1;

const TCP_PROTOCOL: u8 = 6;

const UDP_PROTOCOL: u8 = 17;

const ICMP6_PROTOCOL: u8 = 58;

/// How many bytes of a header must be there.
const TCP_SIZE: usize = 20;

const UDP_SIZE: usize = 8;

const ICMP_SIZE: usize = 8;

const ICMP6_SIZE: usize = 4;

/// Whether a packet carries this protocol, with so many bytes before its end.
#[inline]
fn carries(datagram: &Datagram, protocol: u8, size: usize) -> bool
    requires { 0 < size }
    ensures { result ≡ carries datagram.now protocol size }
{
    let after = datagram.end.saturating_sub(datagram.upper.at);
    datagram.upper.protocol == protocol && after >= size
}

#[inline]
fn icmp(datagram: &Datagram) -> L4
    ensures value { result
        ≡ (if carries datagram.now icmp_protocol icmp_size then L4.Icmp datagram.now.upper.at else L4.None) }
    ensures before { IsBefore datagram.now.end result }
{
    if carries(datagram, ICMP_PROTOCOL, ICMP_SIZE) {
        L4::Icmp(datagram.upper.at)
    } else {
        L4::None
    }
}

#[inline]
fn icmp6(datagram: &Datagram) -> L4
    ensures value { result
        ≡ (if carries datagram.now icmp6_protocol icmp6_size then L4.Icmp6 datagram.now.upper.at else L4.None) }
    ensures before { IsBefore datagram.now.end result }
{
    if carries(datagram, ICMP6_PROTOCOL, ICMP6_SIZE) {
        L4::Icmp6(datagram.upper.at)
    } else {
        L4::None
    }
}

/// The header of TCP or UDP that a packet carries, or else another.
#[inline]
fn tcp_or_udp(datagram: &Datagram, other: L4) -> L4
    requires { IsBefore datagram.now.end other }
    ensures value { result ≡ tcp_or_udp datagram.now other }
    ensures before { IsBefore datagram.now.end result }
{
    if carries(datagram, TCP_PROTOCOL, TCP_SIZE) {
        L4::Tcp(datagram.upper.at)
    } else if carries(datagram, UDP_PROTOCOL, UDP_SIZE) {
        L4::Udp(datagram.upper.at)
    } else {
        other
    }
}

/// A later fragment has no transport header.
#[inline]
fn unless_later(fragment: Fragment, header: L4) -> L4
    ensures { result ≡ unless_later fragment header }
{
    match fragment {
        Fragment::Later => L4::None,
        Fragment::Whole | Fragment::First => header,
    }
}

/// The transport header of a frame by its network header.
#[inline]
#[tactic(auto, unfolding(spec_frames::specs::Transport::transport))]
pub fn transport(network: &Network) -> L4
    ensures value { result ≡ transport network.now }
    ensures before { IsBefore (end_of network.now) result }
{
    match network {
        Network::Nothing | Network::Arp(_) => L4::None,
        Network::Ipv4(_, datagram) => unless_later(
            datagram.upper.fragment,
            tcp_or_udp(datagram, icmp(datagram)),
        ),
        Network::Ipv6(_, datagram) => unless_later(
            datagram.upper.fragment,
            tcp_or_udp(datagram, icmp6(datagram)),
        ),
    }
}

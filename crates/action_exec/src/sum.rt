//! The checksums that cover a field.
ghost use Rattle.std.specs.Prelude.{◌≡◌};
ghost use Rattle.spec_exec.specs.Places.{ipv4_sum, header_sum, port_sum, address_sum, transport_sum, sums_of};
ghost use Rattle.frame_keys.specs.Within.{IsBefore};
ghost use Rattle.frame_keys.specs.Laid.{NetworkIsBefore, AreBefore};
ghost use Rattle.action_exec.specs.Placed.{listed, all_listed};

use frame_keys::layout::{L3, L4, Layout};
use spec_keys::FieldId;

/// Where checksums stand in their headers (RFC 791, RFC 9293, RFC 768 and RFC 4443).
const IPV4_SUM_AT: usize = 10;

const TCP_SUM_AT: usize = 16;

const UDP_SUM_AT: usize = 6;

const ICMP6_SUM_AT: usize = 2;

/// What a checksum of 0 says.
#[derive(Clone, Copy)]
pub enum Zero {
    /// Nothing: it is a sum as others.
    Plain,
    /// None can be 0: 65,535 is sent for it.
    Ones,
    /// That there is no checksum.
    Absent,
}

/// A checksum: the offset at which it stands, and what 0 says in it.
#[derive(Clone, Copy)]
pub struct Sum {
    pub at: usize,
    pub zero_says: Zero,
}

/// The checksums that cover a field: that of the network header, and that of the transport header.
#[derive(Clone, Copy)]
pub struct Sums {
    pub header: Option<Sum>,
    pub transport: Option<Sum>,
}

fn sum_at(at: usize, zero_says: Zero) -> Option<Sum>
    ensures { result ≡ Some (record { at = at; zero_says = zero_says }) }
{
    Some(Sum { at, zero_says })
}

/// The checksum of a header of IPv4.
fn ipv4_sum(network: L3) -> Option<Sum>
    requires { NetworkIsBefore usize.MAX network }
    ensures { listed result ≡ ipv4_sum network }
{
    match network {
        L3::Ipv4(at) => sum_at(at + IPV4_SUM_AT, Zero::Plain),
        L3::None | L3::Arp(_) | L3::Ipv6(_) => None,
    }
}

/// The one of the network header that covers a field.
fn header_sum(field: FieldId, network: L3) -> Option<Sum>
    requires { NetworkIsBefore usize.MAX network }
    ensures { listed result ≡ header_sum field network }
{
    match field {
        FieldId::NwSrc | FieldId::NwDst | FieldId::NwTos | FieldId::NwTtl => ipv4_sum(network),
        _ => None,
    }
}

/// The one of the transport header that covers the ports.
fn port_sum(network: L3, transport: L4) -> Option<Sum>
    requires { IsBefore usize.MAX transport }
    ensures { listed result ≡ port_sum network transport }
{
    match (transport, network) {
        (L4::Tcp(at), _) => sum_at(at + TCP_SUM_AT, Zero::Plain),
        (L4::Udp(at), L3::Ipv4(_)) => sum_at(at + UDP_SUM_AT, Zero::Absent),
        (L4::Udp(at), _) => sum_at(at + UDP_SUM_AT, Zero::Ones),
        (L4::None | L4::Icmp(_) | L4::Icmp6(_), _) => None,
    }
}

/// The one that covers the addresses.
fn address_sum(network: L3, transport: L4) -> Option<Sum>
    requires { IsBefore usize.MAX transport }
    ensures { listed result ≡ address_sum network transport }
{
    match transport {
        L4::Icmp6(at) => sum_at(at + ICMP6_SUM_AT, Zero::Plain),
        L4::None | L4::Tcp(_) | L4::Udp(_) | L4::Icmp(_) => port_sum(network, transport),
    }
}

/// The one of the transport header that covers a field. On its way to the last address of a routing header a packet has
/// the sum of that address.
fn transport_sum(layout: &Layout, field: FieldId) -> Option<Sum>
    requires { AreBefore usize.MAX layout.now }
    ensures { listed result ≡ transport_sum layout.now field }
{
    match field {
        FieldId::Ipv6Dst if layout.routed => None,
        FieldId::NwSrc | FieldId::NwDst | FieldId::Ipv6Src | FieldId::Ipv6Dst => {
            address_sum(layout.l3, layout.l4)
        }
        FieldId::TpSrc | FieldId::TpDst => port_sum(layout.l3, layout.l4),
        _ => None,
    }
}

/// The checksums that cover a field in a frame with these headers.
pub fn sums_of(layout: &Layout, field: FieldId) -> Sums
    requires { AreBefore usize.MAX layout.now }
    ensures { all_listed result ≡ sums_of layout.now field }
{
    Sums {
        header: header_sum(field, layout.l3),
        transport: transport_sum(layout, field),
    }
}

//! Where the headers of a frame stand.
ghost use Rattle.std.specs.Prelude.{◌≡◌, length};
ghost use Rattle.spec_frames.specs.Layout.{place_of_network, is_routed, layout_with, layout_of};
ghost use Rattle.frame_keys.specs.Within.{end_of, IsBefore};
ghost use Rattle.frame_keys.specs.Laid.{AreBefore};

use crate::headers::{HEADER_SIZE, carried, network_at, tag_count, transport};
use spec_frames::{L3, Layout, Network};

#[inline]
fn place_of_network(network: &Network) -> L3
    ensures { result ≡ place_of_network network.now }
{
    match network {
        Network::Nothing => L3::None,
        Network::Arp(at) => L3::Arp(*at),
        Network::Ipv4(at, _) => L3::Ipv4(*at),
        Network::Ipv6(at, _) => L3::Ipv6(*at),
    }
}

#[inline]
fn is_routed(network: &Network) -> bool
    ensures { result ≡ is_routed network.now }
{
    match network {
        Network::Nothing | Network::Arp(_) => false,
        Network::Ipv4(_, datagram) | Network::Ipv6(_, datagram) => datagram.upper.routed,
    }
}

#[inline]
fn layout_with(tags: u8, network: &Network) -> Layout
    ensures value { result ≡ layout_with tags network.now }
    ensures before { IsBefore (end_of network.now) result.l4 }
{
    Layout {
        tags,
        l3: place_of_network(network),
        l4: transport(network),
        routed: is_routed(network),
    }
}

/// Where the headers of a frame stand, by offsets in bytes; nowhere in one that is shorter than an Ethernet header. It
/// takes no memory.
#[tactic(auto, unfolding(spec_frames::specs::Layout::layout_of))]
pub fn layout_of(frame: &[u8]) -> Layout
    ensures value { result ≡ layout_of frame.now }
    ensures within { AreBefore (length frame.now) result }
{
    if frame.len() < HEADER_SIZE {
        return layout_with(0, &Network::Nothing);
    }
    let tags = tag_count(frame);
    layout_with(tags, &network_at(frame, carried(frame, tags)))
}

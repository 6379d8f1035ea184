ghost use Rattle.std.specs.Prelude.{◌≡◌, ℕ, ◌↔◌, List};
ghost use Rattle.spec_keys.specs.Protocols.{arp_type, ipv4_type, ipv6_type, tcp_protocol, udp_protocol, icmp_protocol, icmp6_protocol};
ghost use Rattle.spec_frames.specs.declared.layout.L3.TheVariants as l3;
ghost use Rattle.spec_frames.specs.declared.layout.L4.TheVariants.{Tcp, Udp, Icmp, Icmp6};
ghost use Rattle.spec_frames.specs.Arp as arp;
ghost use Rattle.spec_frames.specs.Ipv4 as ipv4;
ghost use Rattle.spec_frames.specs.Ipv6 as ipv6;
ghost use Rattle.spec_frames.specs.Transport.{tcp_size, udp_size, icmp_size, icmp6_size};
ghost use Rattle.spec_frames.specs.Key.{key_of};
ghost use Rattle.spec_frames.specs.Layout.{layout_of};
ghost use Rattle.frame_laws.specs.Headers.{HasIp, HasIpv4, HasIpv6, FollowsType, FollowsIp};
ghost use Rattle.frame_laws.specs.Numbers.{Carries};

/// In a frame with an IP header the layout names a transport header at an offset exactly where the packet is no later
/// fragment, its protocol is that one, it begins there, and as many bytes of it are there as this profile asks for: 20
/// of TCP, 8 of UDP, 8 of ICMP, over IPv4 alone, and 4 of ICMPv6, over IPv6 alone.
pub fn transport_is_named_where_it_stands()
    ensures tcp { (port : ℕ) (frame : List ℕ) (at : ℕ) → HasIp frame
        → (layout_of frame).l4 ≡ Tcp at ↔ Carries frame (key_of port frame) tcp_protocol tcp_size at }
    ensures udp { (port : ℕ) (frame : List ℕ) (at : ℕ) → HasIp frame
        → (layout_of frame).l4 ≡ Udp at ↔ Carries frame (key_of port frame) udp_protocol udp_size at }
    ensures icmp { (port : ℕ) (frame : List ℕ) (at : ℕ) → HasIp frame
        → (layout_of frame).l4 ≡ Icmp at
        ↔ (HasIpv4 frame × Carries frame (key_of port frame) icmp_protocol icmp_size at) }
    ensures icmp6 { (port : ℕ) (frame : List ℕ) (at : ℕ) → HasIp frame
        → (layout_of frame).l4 ≡ Icmp6 at
        ↔ (HasIpv6 frame × Carries frame (key_of port frame) icmp6_protocol icmp6_size at) }
{}

/// The headers that the layout names follow each other and lie in the frame. A network header begins after its type
/// field, so at 14 or later, and four bytes later for each tag; of ARP there are 28 bytes, of IPv4 20 and of IPv6 40. A
/// transport header begins after these bytes of an IP header; of TCP there are 20 bytes, of UDP and ICMP 8 and of
/// ICMPv6 4.
pub fn headers_follow_each_other()
    ensures arp { (frame : List ℕ) (at : ℕ)
        → (layout_of frame).l3 ≡ l3.Arp at → FollowsType frame (layout_of frame) arp_type arp.packet_size at }
    ensures ipv4 { (frame : List ℕ) (at : ℕ)
        → (layout_of frame).l3 ≡ l3.Ipv4 at → FollowsType frame (layout_of frame) ipv4_type ipv4.least_header_size at }
    ensures ipv6 { (frame : List ℕ) (at : ℕ)
        → (layout_of frame).l3 ≡ l3.Ipv6 at → FollowsType frame (layout_of frame) ipv6_type ipv6.header_size at }
    ensures tcp { (frame : List ℕ) (at : ℕ)
        → (layout_of frame).l4 ≡ Tcp at → FollowsIp frame (layout_of frame) tcp_size at }
    ensures udp { (frame : List ℕ) (at : ℕ)
        → (layout_of frame).l4 ≡ Udp at → FollowsIp frame (layout_of frame) udp_size at }
    ensures icmp { (frame : List ℕ) (at : ℕ)
        → (layout_of frame).l4 ≡ Icmp at → FollowsIp frame (layout_of frame) icmp_size at }
    ensures icmp6 { (frame : List ℕ) (at : ℕ)
        → (layout_of frame).l4 ≡ Icmp6 at → FollowsIp frame (layout_of frame) icmp6_size at }
{}

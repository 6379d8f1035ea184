ghost use Rattle.std.specs.Prelude.{◌≡◌, ◌≢◌, ℕ, List};
ghost use Rattle.spec_keys.specs.declared.field_id.FieldId.TheVariants.{IpFrag};
ghost use Rattle.spec_keys.specs.Keys.{value_of};
ghost use Rattle.spec_frames.specs.declared.headers.Fragment.TheVariants.{Whole, Later};
ghost use Rattle.spec_frames.specs.declared.layout.L4.TheVariants.{None, Tcp, Udp, Icmp, Icmp6};
ghost use Rattle.spec_frames.specs.Key.{ip_frag, key_of};
ghost use Rattle.spec_frames.specs.Layout.{layout_of};
ghost use Rattle.frame_laws.specs.Numbers.{HasPorts, HasPortsAt, HasTypeAt, IsNoFragment};

/// In a packet that is no fragment (`ip_frag` 0) `tp_src` and `tp_dst` are the two numbers that the transport header
/// begins with: ports of 16 bits, or a type and a code of 8. They are 0 where the layout names no such header.
pub fn ports_are_those_of_the_header()
    ensures tcp { (port : ℕ) (frame : List ℕ) (at : ℕ)
        → IsNoFragment (key_of port frame) → (layout_of frame).l4 ≡ Tcp at
        → HasPortsAt frame (key_of port frame) at }
    ensures udp { (port : ℕ) (frame : List ℕ) (at : ℕ)
        → IsNoFragment (key_of port frame) → (layout_of frame).l4 ≡ Udp at
        → HasPortsAt frame (key_of port frame) at }
    ensures icmp { (port : ℕ) (frame : List ℕ) (at : ℕ)
        → IsNoFragment (key_of port frame) → (layout_of frame).l4 ≡ Icmp at
        → HasTypeAt frame (key_of port frame) at }
    ensures icmp6 { (port : ℕ) (frame : List ℕ) (at : ℕ)
        → IsNoFragment (key_of port frame) → (layout_of frame).l4 ≡ Icmp6 at
        → HasTypeAt frame (key_of port frame) at }
    ensures none { (port : ℕ) (frame : List ℕ)
        → IsNoFragment (key_of port frame) → (layout_of frame).l4 ≡ None
        → HasPorts (key_of port frame) 0 0 }
{}

/// In a fragment (`ip_frag` other than 0) `tp_src` and `tp_dst` are 0, and in a later one (`ip_frag` 3) the layout
/// names no transport header.
pub fn fragments_have_no_ports()
    ensures ports { (port : ℕ) (frame : List ℕ)
        → value_of (key_of port frame) IpFrag ≢ ip_frag Whole → HasPorts (key_of port frame) 0 0 }
    ensures later { (port : ℕ) (frame : List ℕ)
        → value_of (key_of port frame) IpFrag ≡ ip_frag Later → (layout_of frame).l4 ≡ None }
{}

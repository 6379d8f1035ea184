ghost use Rattle.std.specs.Prelude.{◌≡◌, ◌≢◌, ℕ, ◌<◌, ◌≤◌, ◌^◌, List, ◌++◌, length, take, All};
ghost use Rattle.spec_keys.specs.declared.field_id.FieldId.TheVariants.{InPort};
ghost use Rattle.spec_keys.specs.Fields.{width_of};
ghost use Rattle.spec_keys.specs.Keys.{none, IsKey, IsClean};
ghost use Rattle.spec_frames.specs.declared.layout.L3.TheVariants.{None};
ghost use Rattle.spec_frames.specs.Ethernet.{header_size};
ghost use Rattle.spec_frames.specs.Key.{with_value, key_of};
ghost use Rattle.spec_frames.specs.Layout.{layout_of};
ghost use Rattle.frame_laws.specs.Headers.{packet_end};

/// Bytes after a packet, as those that fill an Ethernet frame up to its least size, change neither the key nor the
/// layout. The packet ends where its network header says: 28 bytes after the beginning of ARP, the total length after
/// that of IPv4, and 40 bytes and the payload length after that of IPv6. The frame has all bytes before this end.
pub fn bytes_after_the_packet_do_not_count()
    ensures key { (port : ℕ) (frame padding : List ℕ)
        → (layout_of frame).l3 ≢ None → packet_end frame ≤ length frame
        → key_of port (take (packet_end frame) frame ++ padding) ≡ key_of port frame }
    ensures layout { (frame padding : List ℕ)
        → (layout_of frame).l3 ≢ None → packet_end frame ≤ length frame
        → layout_of (take (packet_end frame) frame ++ padding) ≡ layout_of frame }
{}

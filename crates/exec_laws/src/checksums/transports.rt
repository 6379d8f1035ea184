ghost use Rattle.std.specs.Prelude.{◌≡◌, ℕ, false, List};
ghost use Rattle.spec_keys.specs.declared.field_id.FieldId.TheVariants.{Ipv6Dst};
ghost use Rattle.spec_frames.specs.declared.layout.L3.TheVariants as l3;
ghost use Rattle.spec_frames.specs.declared.layout.L4.TheVariants as l4;
ghost use Rattle.spec_frames.specs.Layout.{layout_of};
ghost use Rattle.exec_laws.specs.ReadBack.{OfWrites};
ghost use Rattle.exec_laws.specs.Right.{AreWords, transport_words, final_words, udp_checksum, HasTransportSum, StayRight, IsOnItsWay};

/// The checksum of TCP (RFC 9293, 3.1), UDP (RFC 768) or ICMPv6 (RFC 4443, 2.3), over IPv4 or IPv6 (RFC 8200, 8.1), or of
/// ICMP (RFC 792), that was right is right after a write to any field. UDP has a checksum, which is not 0.
///
/// The exceptions are the destination of IPv6 after a routing header, which no checksum follows, and fragments, of whose
/// datagram nothing is said: what is covered here is the words of the frame alone.
pub fn transport_checksums_stay_right()
    ensures { OfWrites (λ f frame after. HasTransportSum frame
        → (f ≡ Ipv6Dst → (layout_of frame).routed ≡ false)
        → StayRight transport_words frame after) }
{}

/// After a routing header with segments left a checksum covers the final destination in place of the one in the IPv6 header
/// (RFC 8200, 8.1). Such a checksum that was right, whatever that destination is, is right after a write to any field.
pub fn checksums_over_a_final_destination_stay_right()
    ensures { OfWrites (λ f frame after. (to : List ℕ) (begin : ℕ) → AreWords to
        → IsOnItsWay frame begin → HasTransportSum frame → StayRight (final_words to) frame after) }
{}

/// UDP over IPv4 without a checksum stays without one after a write to any field, and UDP with a checksum, over IPv4 or
/// IPv6, keeps one.
///
/// The exception is UDP over IPv6 whose checksum is 0 (RFC 6935): it becomes a number where it follows.
pub fn udp_stays_with_or_without_a_checksum()
    ensures without { OfWrites (λ f frame after. (begin at : ℕ)
        → (layout_of frame).l3 ≡ l3.Ipv4 begin → (layout_of frame).l4 ≡ l4.Udp at
        → udp_checksum frame at ≡ 0 → udp_checksum after at ≡ 0) }
    ensures with_one { OfWrites (λ f frame after. HasTransportSum frame → HasTransportSum after) }
{}

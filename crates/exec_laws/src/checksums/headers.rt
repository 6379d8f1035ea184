ghost use Rattle.exec_laws.specs.ReadBack.{OfWrites};
ghost use Rattle.exec_laws.specs.Right.{header_words, StayRight};

/// The checksum of an IPv4 header (RFC 791, 3.1) that was right is right after a write to any field.
pub fn ipv4_header_checksums_stay_right()
    ensures { OfWrites (λ f frame after. StayRight header_words frame after) }
{}

//! What the header of IPv6 (RFC 8200) gives to a key, beside what both versions of IP do.
ghost use Rattle.std.specs.Prelude.{◌≡◌, ◌+◌, ◌≤◌, length};
ghost use Rattle.spec_frames.specs.Ipv6.{header_size};
ghost use Rattle.spec_frames.specs.Key.{with_ipv6};
ghost use Rattle.frame_keys.specs.Folded.{folded};

use crate::field::set_field;
use net_bytes::be128;
use ovs_fields::{FieldId, Key};

const SOURCE_AT: usize = 8;

const DESTINATION_AT: usize = 24;

/// Gives a key the addresses of the header at an offset.
#[inline]
pub(crate) fn set_ipv6(key: &mut Key, frame: &[u8], at: usize)
    requires { at + header_size ≤ length frame.now }
    ensures { folded key.new ≡ with_ipv6 frame.now at (folded key.old) }
{
    set_field(key, FieldId::Ipv6Src, be128(frame, at + SOURCE_AT));
    set_field(key, FieldId::Ipv6Dst, be128(frame, at + DESTINATION_AT));
}

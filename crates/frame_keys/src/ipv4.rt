//! What the header of IPv4 (RFC 791) gives to a key, beside what both versions of IP do.
ghost use Rattle.std.specs.Prelude.{◌≡◌, ◌+◌, ◌≤◌, length};
ghost use Rattle.spec_frames.specs.Ipv4.{least_header_size};
ghost use Rattle.spec_frames.specs.Key.{with_ipv4};
ghost use Rattle.frame_keys.specs.Folded.{folded};

use crate::field::set_field;
use net_bytes::be32;
use ovs_fields::{FieldId, Key};

const SOURCE_AT: usize = 12;

const DESTINATION_AT: usize = 16;

/// Gives a key the addresses of the header at an offset.
#[inline]
pub(crate) fn set_ipv4(key: &mut Key, frame: &[u8], at: usize)
    requires { at + least_header_size ≤ length frame.now }
    ensures { folded key.new ≡ with_ipv4 frame.now at (folded key.old) }
{
    set_field(key, FieldId::NwSrc, u128::from(be32(frame, at + SOURCE_AT)));
    set_field(
        key,
        FieldId::NwDst,
        u128::from(be32(frame, at + DESTINATION_AT)),
    );
}

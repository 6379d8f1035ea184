//! What ARP (RFC 826), for the addresses of Ethernet and of IPv4, gives to a key.
ghost use Rattle.std.specs.Prelude.{◌≡◌, ◌+◌, ◌≤◌, length};
ghost use Rattle.spec_frames.specs.Arp.{packet_size, key_operation};
ghost use Rattle.spec_frames.specs.Key.{with_arp};
ghost use Rattle.frame_keys.specs.Folded.{folded};

use crate::field::set_field;
use net_bytes::{be16, be32, be48};
use ovs_fields::{FieldId, Key};

/// Where the parts stand after the hardware type.
const OPERATION_AT: usize = 6;

const SENDER_HARDWARE_AT: usize = 8;

const SENDER_PROTOCOL_AT: usize = 14;

const TARGET_HARDWARE_AT: usize = 18;

const TARGET_PROTOCOL_AT: usize = 24;

/// The operation, or 0 where it is greater than a key holds: `nw_proto` has 8 bits (ovs-fields(7)).
#[inline]
fn key_operation(operation: u16) -> u8
    ensures { result ≡ key_operation operation }
{
    u8::try_from(operation).unwrap_or(0)
}

/// Gives a key the fields of the packet at an offset.
#[inline]
pub(crate) fn set_arp(key: &mut Key, frame: &[u8], at: usize)
    requires { at + packet_size ≤ length frame.now }
    ensures { folded key.new ≡ with_arp frame.now at (folded key.old) }
{
    set_field(
        key,
        FieldId::NwSrc,
        u128::from(be32(frame, at + SENDER_PROTOCOL_AT)),
    );
    set_field(
        key,
        FieldId::NwDst,
        u128::from(be32(frame, at + TARGET_PROTOCOL_AT)),
    );
    set_field(
        key,
        FieldId::NwProto,
        u128::from(key_operation(be16(frame, at + OPERATION_AT))),
    );
    set_field(
        key,
        FieldId::ArpSha,
        u128::from(be48(frame, at + SENDER_HARDWARE_AT)),
    );
    set_field(
        key,
        FieldId::ArpTha,
        u128::from(be48(frame, at + TARGET_HARDWARE_AT)),
    );
}

ghost use Rattle.std.specs.Prelude.{◌≡◌, ◌+◌, ◌≤◌, length};
ghost use Rattle.spec_pcap.specs.Pcap.{number_at};

use net_bytes::{be16, be32, le16, le32};
use spec_pcap::ByteOrder;

/// The number of the two bytes at an offset.
pub fn number16(order: ByteOrder, bytes: &[u8], at: usize) -> u16
    requires { at + 2 ≤ length bytes.now }
    ensures { result ≡ number_at order 2 bytes.now at }
{
    match order {
        ByteOrder::LittleEndian => le16(bytes, at),
        ByteOrder::BigEndian => be16(bytes, at),
    }
}

/// The number of the four bytes at an offset.
pub fn number32(order: ByteOrder, bytes: &[u8], at: usize) -> u32
    requires { at + 4 ≤ length bytes.now }
    ensures { result ≡ number_at order 4 bytes.now at }
{
    match order {
        ByteOrder::LittleEndian => le32(bytes, at),
        ByteOrder::BigEndian => be32(bytes, at),
    }
}

//! Numbers that stand in bytes, at an offset counted from 0.
ghost use Rattle.std.specs.Prelude.{◌≡◌, ◌+◌, ◌<◌, ◌≤◌, ◌^◌, length};
ghost use Rattle.spec_base.specs.Bytes.{big_endian_at, little_endian_at};

use byteorder::{ByteOrder, LittleEndian, NetworkEndian};

/// The number of the two bytes at an offset, the most significant byte first.
#[tactic(auto, using(crate::proofs::Readings::big_endian_read))]
pub fn be16(b: &[u8], at: usize) -> u16
    requires { at + 2 ≤ length b.now }
    ensures { result ≡ big_endian_at 2 b.now at }
{
    NetworkEndian::read_u16(&b[at..])
}

/// The number of the four bytes at an offset, the most significant byte first.
#[tactic(auto, using(crate::proofs::Readings::big_endian_read))]
pub fn be32(b: &[u8], at: usize) -> u32
    requires { at + 4 ≤ length b.now }
    ensures { result ≡ big_endian_at 4 b.now at }
{
    NetworkEndian::read_u32(&b[at..])
}

/// The number of the six bytes at an offset, the most significant byte first. It is below 2^48.
#[tactic(auto, using(crate::proofs::Readings::big_endian_read))]
pub fn be48(b: &[u8], at: usize) -> u64
    requires { at + 6 ≤ length b.now }
    ensures value { result ≡ big_endian_at 6 b.now at }
    ensures fits { result < 2 ^ 48 }
{
    NetworkEndian::read_u48(&b[at..])
}

/// The number of the sixteen bytes at an offset, the most significant byte first.
#[tactic(auto, using(crate::proofs::Readings::big_endian_read))]
pub fn be128(b: &[u8], at: usize) -> u128
    requires { at + 16 ≤ length b.now }
    ensures { result ≡ big_endian_at 16 b.now at }
{
    NetworkEndian::read_u128(&b[at..])
}

/// The number of the two bytes at an offset, the least significant byte first.
#[tactic(auto, using(crate::proofs::Readings::little_endian_read))]
pub fn le16(b: &[u8], at: usize) -> u16
    requires { at + 2 ≤ length b.now }
    ensures { result ≡ little_endian_at 2 b.now at }
{
    LittleEndian::read_u16(&b[at..])
}

/// The number of the four bytes at an offset, the least significant byte first.
#[tactic(auto, using(crate::proofs::Readings::little_endian_read))]
pub fn le32(b: &[u8], at: usize) -> u32
    requires { at + 4 ≤ length b.now }
    ensures { result ≡ little_endian_at 4 b.now at }
{
    LittleEndian::read_u32(&b[at..])
}

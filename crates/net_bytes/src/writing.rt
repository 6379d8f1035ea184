//! Numbers that are put into bytes, at an offset counted from 0. The other bytes stay as they are.
ghost use Rattle.std.specs.Prelude.{◌≡◌, ◌+◌, ◌<◌, ◌≤◌, ◌^◌, length};
ghost use Rattle.spec_base.specs.Bytes.{big_endian};
ghost use Rattle.net_bytes.specs.Writing.{replaced};

use byteorder::{ByteOrder, NetworkEndian};

/// Puts a number into the two bytes at an offset, the most significant byte first.
pub fn put16(b: &mut [u8], at: usize, v: u16)
    requires { at + 2 ≤ length b.old }
    ensures { b.new ≡ replaced b.old at (big_endian 2 v) }
{
    NetworkEndian::write_u16(&mut b[at..at + 2], v);
}

/// Puts a number into the four bytes at an offset, the most significant byte first.
pub fn put32(b: &mut [u8], at: usize, v: u32)
    requires { at + 4 ≤ length b.old }
    ensures { b.new ≡ replaced b.old at (big_endian 4 v) }
{
    NetworkEndian::write_u32(&mut b[at..at + 4], v);
}

/// Puts a number below 2^48 into the six bytes at an offset, the most significant byte first.
pub fn put48(b: &mut [u8], at: usize, v: u64)
    requires room { at + 6 ≤ length b.old }
    requires fits { v < 2 ^ 48 }
    ensures { b.new ≡ replaced b.old at (big_endian 6 v) }
{
    NetworkEndian::write_u48(&mut b[at..at + 6], v);
}

/// Puts a number into the sixteen bytes at an offset, the most significant byte first.
pub fn put128(b: &mut [u8], at: usize, v: u128)
    requires { at + 16 ≤ length b.old }
    ensures { b.new ≡ replaced b.old at (big_endian 16 v) }
{
    NetworkEndian::write_u128(&mut b[at..at + 16], v);
}

//! The numbers of fields in the bytes of a frame.
ghost use Rattle.std.specs.Prelude.{◌≡◌, ◌+◌, ◌*◌, ◌^◌, ◌<◌, ◌≤◌, length, bit_and};
ghost use Rattle.spec_base.specs.Bits.{all_bits, merged};
ghost use Rattle.spec_base.specs.Bytes.{big_endian_at};
ghost use Rattle.spec_exec.specs.Writing.{with_number};
ghost use Rattle.action_exec.specs.Shapes.{size_of, unit_of, bits_of};

use crate::shape::{Shape, all_bits, placed_bits};
use net_bytes::{be16, be32, be48, be128, put16, put32, put48, put128};

/// The number of the bytes at an offset in which a field stands.
#[tactic(auto, unfolding(spec_base::specs::Bytes::big_endian_at))]
fn number_at(frame: &[u8], at: usize, shape: Shape) -> u128
    requires { at + size_of shape ≤ length frame.now }
    ensures value { result ≡ big_endian_at (size_of shape) frame.now at }
    ensures fits { result < 256 ^ size_of shape }
{
    match shape {
        Shape::Byte => u128::from(frame[at]),
        Shape::TrafficClass | Shape::Port => u128::from(be16(frame, at)),
        Shape::Ipv4Address => u128::from(be32(frame, at)),
        Shape::EthernetAddress => u128::from(be48(frame, at)),
        Shape::Ipv6Address => be128(frame, at),
    }
}

/// Puts a number into the bytes at an offset in which a field stands.
fn put_number(frame: &mut [u8], at: usize, shape: Shape, number: u128)
    requires room { at + size_of shape ≤ length frame.old }
    requires fits { number < 256 ^ size_of shape }
    ensures { frame.new ≡ with_number (size_of shape) frame.old at number }
{
    match shape {
        Shape::Byte => frame[at] = number as u8,
        Shape::TrafficClass | Shape::Port => put16(frame, at, number as u16),
        Shape::Ipv4Address => put32(frame, at, number as u32),
        Shape::EthernetAddress => put48(frame, at, number as u64),
        Shape::Ipv6Address => put128(frame, at, number),
    }
}

/// Puts the bits of a value where the mask has 1. No bit is put beyond the field's width.
pub fn put_bits(frame: &mut [u8], at: usize, shape: Shape, value: u128, mask: u128)
    requires { at + size_of shape ≤ length frame.old }
    ensures { frame.new
        ≡ with_number (size_of shape) frame.old at (merged (big_endian_at (size_of shape) frame.old at) (value * unit_of shape) (bit_and mask (all_bits (bits_of shape)) * unit_of shape)) }
{
    let mask = mask & all_bits(shape);
    let before = number_at(frame, at, shape);
    let changed = (before ^ placed_bits(shape, value & mask)) & placed_bits(shape, mask);
    put_number(frame, at, shape, before ^ changed);
}

//! How fields stand in the bytes of a frame.
ghost use Rattle.std.specs.Prelude.{◌≡◌, ◌*◌, ◌^◌, ◌<◌};
ghost use Rattle.spec_base.specs.Bits.{all_bits};
ghost use Rattle.action_exec.specs.Shapes.{size_of, unit_of, bits_of, words_of};

/// The most words of 16 bits that a field has.
pub const MOST_WORDS: usize = 8;

/// Below the traffic class stand four bits of the flow label (RFC 8200).
const CLASS_SHIFT: u32 = 4;

const BYTE_BITS: u128 = 0xff;

const PORT_BITS: u128 = 0xffff;

const IPV4_BITS: u128 = 0xffff_ffff;

const ETHERNET_BITS: u128 = 0xffff_ffff_ffff;

/// How a field stands in its header.
#[derive(Clone, Copy)]
pub enum Shape {
    /// One byte of a word.
    Byte,
    /// Eight bits in the middle of a word, as the traffic class of IPv6.
    TrafficClass,
    /// One word.
    Port,
    Ipv4Address,
    EthernetAddress,
    Ipv6Address,
}

/// Of how many words of 16 bits a field is part.
pub fn word_count(shape: Shape) -> usize
    ensures { result ≡ words_of shape }
{
    match shape {
        Shape::Byte | Shape::TrafficClass | Shape::Port => 1,
        Shape::Ipv4Address => 2,
        Shape::EthernetAddress => 3,
        Shape::Ipv6Address => MOST_WORDS,
    }
}

/// All bits of a field.
pub fn all_bits(shape: Shape) -> u128
    ensures { result ≡ all_bits (bits_of shape) }
{
    match shape {
        Shape::Byte | Shape::TrafficClass => BYTE_BITS,
        Shape::Port => PORT_BITS,
        Shape::Ipv4Address => IPV4_BITS,
        Shape::EthernetAddress => ETHERNET_BITS,
        Shape::Ipv6Address => u128::MAX,
    }
}

/// Bits of a field, where they stand in the number of its bytes.
pub fn placed_bits(shape: Shape, bits: u128) -> u128
    requires { bits < 2 ^ bits_of shape }
    ensures value { result ≡ bits * unit_of shape }
    ensures fits { result < 256 ^ size_of shape }
{
    match shape {
        Shape::TrafficClass => bits << CLASS_SHIFT,
        Shape::Byte
        | Shape::Port
        | Shape::Ipv4Address
        | Shape::EthernetAddress
        | Shape::Ipv6Address => bits,
    }
}

//! The header of IPv4 (RFC 791).
ghost use Rattle.std.specs.Prelude.{◌≡◌, ◌+◌, ◌≤◌, true, length};
ghost use Rattle.spec_frames.specs.Ipv4.{least_header_size, version, header_size, total_size, part, fragment, is_ipv4, ipv4};

use net_bytes::be16;
use spec_frames::{Datagram, Fragment, UpperLayer};

const LEAST_HEADER_SIZE: usize = 20;

const VERSION: u8 = 4;

/// In the first byte the version stands above the header's size in words of 32 bits.
const VERSION_SHIFT: u32 = 4;

const SIZE_BITS: u8 = 0x0f;

const WORD_SIZE: usize = 4;

/// Where the other parts stand.
const TOS_AT: usize = 1;

const TOTAL_SIZE_AT: usize = 2;

const FRAGMENT_AT: usize = 6;

const TTL_AT: usize = 8;

const PROTOCOL_AT: usize = 9;

/// The flag that more fragments follow, and the bits of the fragment's offset.
const MORE_FRAGMENTS: u16 = 0x2000;

const OFFSET_BITS: u16 = 0x1fff;

/// The IP version at an offset.
#[inline]
pub(crate) fn version(frame: &[u8], at: usize) -> u8
    requires { at + 1 ≤ length frame.now }
    ensures { result ≡ version frame.now at }
{
    frame[at] >> VERSION_SHIFT
}

/// The header's size, options included.
#[inline]
fn header_size(frame: &[u8], at: usize) -> usize
    requires { at + 1 ≤ length frame.now }
    ensures { result ≡ header_size frame.now at }
{
    WORD_SIZE * usize::from(frame[at] & SIZE_BITS)
}

/// The packet's size, header included.
#[inline]
fn total_size(frame: &[u8], at: usize) -> u16
    requires { at + least_header_size ≤ length frame.now }
    ensures { result ≡ total_size frame.now at }
{
    be16(frame, at + TOTAL_SIZE_AT)
}

/// Which part of a packet has this offset and this flag that more follow.
#[inline]
pub(crate) fn part(offset: u16, more: u16) -> Fragment
    ensures { result ≡ part offset more }
{
    if offset != 0 {
        Fragment::Later
    } else if more != 0 {
        Fragment::First
    } else {
        Fragment::Whole
    }
}

#[inline]
fn fragment(frame: &[u8], at: usize) -> Fragment
    requires { at + least_header_size ≤ length frame.now }
    ensures { result ≡ fragment frame.now at }
{
    let flags = be16(frame, at + FRAGMENT_AT);
    part(flags & OFFSET_BITS, flags & MORE_FRAGMENTS)
}

/// Whether a well-formed header stands at an offset.
#[inline]
#[tactic(auto, unfolding(spec_frames::specs::Ipv4::is_ipv4))]
pub(crate) fn is_ipv4(frame: &[u8], at: usize) -> bool
    requires { at ≤ length frame.now }
    ensures { result ≡ is_ipv4 frame.now at }
{
    at + LEAST_HEADER_SIZE <= frame.len()
        && version(frame, at) == VERSION
        && header_size(frame, at) >= LEAST_HEADER_SIZE
        && at + header_size(frame, at) <= frame.len()
        && header_size(frame, at) <= usize::from(total_size(frame, at))
}

/// What the header at an offset says. Where the frame was cut, the packet ends with it.
#[inline]
#[tactic(auto, unfolding(spec_frames::specs::Ipv4::is_ipv4, spec_frames::specs::Ipv4::ipv4))]
pub(crate) fn ipv4(frame: &[u8], at: usize) -> Datagram
    requires near { at ≤ length frame.now }
    requires formed { is_ipv4 frame.now at ≡ true }
    ensures value { result ≡ ipv4 frame.now at }
    ensures header { at + least_header_size ≤ length frame.now }
    ensures within { result.end ≤ length frame.now }
{
    Datagram {
        tos: frame[at + TOS_AT],
        ttl: frame[at + TTL_AT],
        end: (at + usize::from(total_size(frame, at))).min(frame.len()),
        upper: UpperLayer {
            protocol: frame[at + PROTOCOL_AT],
            at: at + header_size(frame, at),
            fragment: fragment(frame, at),
            routed: false,
        },
    }
}

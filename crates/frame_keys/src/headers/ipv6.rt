//! The header of IPv6 and its extension headers (RFC 8200; RFC 4302 for authentication).
ghost use Rattle.std.specs.Prelude.{◌≡◌, ◌+◌, ◌≤◌, length, IsSome, IfSome};
ghost use Rattle.spec_frames.specs.Ipv6.{header_size, traffic_class, is_extension, least_extension_size, extension_size, is_present, fragment, and_after, upper_layer, most_extensions, end_of, ipv6};

use crate::headers::ipv4::{part, version};
use net_bytes::be16;
use spec_frames::{Datagram, Fragment, UpperLayer};

const HEADER_SIZE: usize = 40;

const VERSION: u8 = 6;

/// In the first two bytes the traffic class stands below the version and above four bits of the flow label.
const CLASS_SHIFT: u32 = 4;

const CLASS_BITS: u16 = 0x00ff;

/// Where the other parts stand.
const PAYLOAD_SIZE_AT: usize = 4;

const NEXT_HEADER_AT: usize = 6;

const HOP_LIMIT_AT: usize = 7;

/// The numbers of the extension headers.
const HOP_BY_HOP: u8 = 0;

const ROUTING: u8 = 43;

const FRAGMENTATION: u8 = 44;

const AUTHENTICATION: u8 = 51;

const DESTINATION_OPTIONS: u8 = 60;

/// The most extension headers that are passed.
const MOST_EXTENSIONS: usize = 8;

const LEAST_EXTENSION_SIZE: usize = 8;

/// Extension headers say how many units they have beyond the least size: of 8 bytes, or of 4 in authentication.
const EXTENSION_UNIT: usize = 8;

const AUTHENTICATION_UNIT: usize = 4;

/// Where an extension header says its size, and a fragment header its offset and flag.
const EXTENSION_SIZE_AT: usize = 1;

const FRAGMENT_AT: usize = 2;

/// The bits of the fragment's offset, and the flag that more fragments follow.
const OFFSET_BITS: u16 = 0xfff8;

const MORE_FRAGMENTS: u16 = 1;

#[inline]
fn traffic_class(frame: &[u8], at: usize) -> u8
    requires { at + header_size ≤ length frame.now }
    ensures { result ≡ traffic_class frame.now at }
{
    ((be16(frame, at) >> CLASS_SHIFT) & CLASS_BITS) as u8
}

/// Where the packet ends, as far as the frame has it.
#[inline]
fn end_of(frame: &[u8], at: usize) -> usize
    requires { at + header_size ≤ length frame.now }
    ensures value { result ≡ end_of frame.now at }
    ensures within { result ≤ length frame.now }
{
    (at + HEADER_SIZE + usize::from(be16(frame, at + PAYLOAD_SIZE_AT))).min(frame.len())
}

#[inline]
fn is_extension(number: u8) -> bool
    ensures { result ≡ is_extension number }
{
    matches!(
        number,
        HOP_BY_HOP | ROUTING | FRAGMENTATION | AUTHENTICATION | DESTINATION_OPTIONS
    )
}

/// The size of the extension header of this number at an offset.
#[inline]
fn extension_size(number: u8, frame: &[u8], at: usize) -> usize
    requires { at + least_extension_size ≤ length frame.now }
    ensures { result ≡ extension_size number frame.now at }
{
    let size = usize::from(frame[at + EXTENSION_SIZE_AT]);
    match number {
        FRAGMENTATION => LEAST_EXTENSION_SIZE,
        AUTHENTICATION => AUTHENTICATION_UNIT * size + LEAST_EXTENSION_SIZE,
        _ => EXTENSION_UNIT * size + LEAST_EXTENSION_SIZE,
    }
}

/// Whether it stands wholly before the end of the packet.
#[inline]
fn is_present(number: u8, frame: &[u8], end: usize, at: usize) -> bool
    requires near { at ≤ length frame.now }
    requires within { end ≤ length frame.now }
    ensures { result ≡ is_present number frame.now end at }
{
    at + LEAST_EXTENSION_SIZE <= end && at + extension_size(number, frame, at) <= end
}

/// Which part of a packet stands after the extension header of this number at an offset.
#[inline]
fn fragment(number: u8, frame: &[u8], at: usize) -> Fragment
    requires { at + least_extension_size ≤ length frame.now }
    ensures { result ≡ fragment number frame.now at }
{
    let flags = be16(frame, at + FRAGMENT_AT);
    if number == FRAGMENTATION {
        part(flags & OFFSET_BITS, flags & MORE_FRAGMENTS)
    } else {
        Fragment::Whole
    }
}

/// A first fragment stays one after further headers, unless one says that it is a later one.
#[inline]
fn and_after(part: Fragment, after: Fragment) -> Fragment
    ensures { result ≡ and_after part after }
{
    match (part, after) {
        (Fragment::First, Fragment::Whole) => Fragment::First,
        _ => after,
    }
}

/// The upper layer after the extension headers, of which the first one, if any, has this number and offset. Nothing is
/// read after the fragment header of a later fragment.
#[inline]
fn upper_layer(frame: &[u8], end: usize, number: u8, at: usize) -> Option<UpperLayer>
    requires near { at ≤ length frame.now }
    requires within { end ≤ length frame.now }
    ensures { result ≡ upper_layer most_extensions frame.now end number at }
{
    let mut upper = UpperLayer {
        protocol: number,
        at,
        fragment: Fragment::Whole,
        routed: false,
    };
    let mut room = MOST_EXTENSIONS;
    'extensions: while is_extension(upper.protocol) {
        if room == 0 || !is_present(upper.protocol, frame, end, upper.at) {
            return None;
        }
        let part = fragment(upper.protocol, frame, upper.at);
        let after = upper.at + extension_size(upper.protocol, frame, upper.at);
        if let Fragment::Later = part {
            return Some(UpperLayer {
                at: after,
                fragment: part,
                ..upper
            });
        }
        upper = UpperLayer {
            protocol: frame[upper.at],
            at: after,
            fragment: and_after(upper.fragment, part),
            routed: upper.routed | (upper.protocol == ROUTING),
        };
        room -= 1;
    }
    Some(upper)
}

/// What the header at an offset says, if it and its extension headers are well formed.
#[inline]
#[tactic(auto, unfolding(spec_frames::specs::Ipv6::ipv6))]
pub(crate) fn ipv6(frame: &[u8], at: usize) -> Option<Datagram>
    requires { at ≤ length frame.now }
    ensures value { result ≡ ipv6 frame.now at }
    ensures header { IsSome result → at + header_size ≤ length frame.now }
    ensures within { IfSome result (λ d. d.end ≤ length frame.now) }
{
    if at + HEADER_SIZE > frame.len() || version(frame, at) != VERSION {
        return None;
    }
    let end = end_of(frame, at);
    let upper = upper_layer(frame, end, frame[at + NEXT_HEADER_AT], at + HEADER_SIZE)?;
    Some(Datagram {
        tos: traffic_class(frame, at),
        ttl: frame[at + HOP_LIMIT_AT],
        end,
        upper,
    })
}

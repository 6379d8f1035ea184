//! The Ethernet header (IEEE 802.3), VLAN tags (IEEE 802.1Q) and a SNAP header (IEEE 802).
ghost use Rattle.std.specs.Prelude.{◌≡◌, ◌+◌, ◌*◌, ◌≤◌, length};
ghost use Rattle.spec_keys.specs.Protocols.{is_tag_type};
ghost use Rattle.spec_frames.specs.Ethernet.{header_size, type_at, type_size, tag_size, inner_at, is_tag_at, tag_count, tpid_at, tci_at, is_snap, carried_by, carried};

use net_bytes::{be16, be48};
use spec_frames::Carried;

/// How many bytes the addresses and the type have.
pub const HEADER_SIZE: usize = 14;

/// Types of what is carried (IEEE 802 Numbers of IANA).
pub(crate) const ARP_TYPE: u16 = 0x0806;

pub(crate) const IPV4_TYPE: u16 = 0x0800;

pub(crate) const IPV6_TYPE: u16 = 0x86dd;

const TYPE_AT: usize = 12;

const TYPE_SIZE: usize = 2;

const TAG_SIZE: usize = 4;

/// Where the outer tag stands, if there is one: in the place of the type.
pub const OUTER_TAG_AT: usize = TYPE_AT;

/// Where the inner one of two tags stands.
pub const INNER_TAG_AT: usize = OUTER_TAG_AT + TAG_SIZE;

/// The types of the tags: of customers and of providers.
const CUSTOMER_TAG: u16 = 0x8100;

const SERVICE_TAG: u16 = 0x88a8;

/// The bit of `vlan_tci` that says that there is a tag (ovs-fields(7)).
const TAG_BIT: u16 = 0x1000;

/// Numbers from here on are types, and smaller ones lengths (IEEE 802.3).
const LEAST_TYPE: u16 = 0x0600;

/// The type of a frame that has none (OpenFlow 1.0).
const NO_TYPE: u16 = 0x05ff;

/// LLC and SNAP: both service access points, the control byte, and the organization of the Ethernet types.
const SNAP: u64 = 0xaaaa_0300_0000;

const SNAP_SIZE: usize = 6;

#[inline]
fn is_tag_type(number: u16) -> bool
    ensures { result ≡ is_tag_type number }
{
    number == CUSTOMER_TAG || number == SERVICE_TAG
}

/// Whether a whole tag stands at an offset, and a type after it.
#[inline]
#[tactic(auto, unfolding(spec_frames::specs::Ethernet::is_tag_at))]
fn is_tag_at(frame: &[u8], at: usize) -> bool
    requires { at ≤ inner_at }
    ensures { result ≡ is_tag_at frame.now at }
{
    frame.len() >= at + TAG_SIZE + TYPE_SIZE && is_tag_type(be16(frame, at))
}

/// How many tags stand after the addresses of a frame that has a whole header: 0, 1 or 2. No third one is read.
#[inline]
#[tactic(auto, unfolding(spec_frames::specs::Ethernet::tag_count, spec_frames::specs::Ethernet::is_tag_at))]
pub fn tag_count(frame: &[u8]) -> u8
    requires { header_size ≤ length frame.now }
    ensures value { result ≡ tag_count frame.now }
    ensures few { result ≤ 2 }
    ensures within { type_at + result * tag_size + type_size ≤ length frame.now }
{
    if !is_tag_at(frame, OUTER_TAG_AT) {
        0
    } else if !is_tag_at(frame, INNER_TAG_AT) {
        1
    } else {
        2
    }
}

/// The type of a tag that stands at an offset.
#[inline]
pub fn tpid_at(frame: &[u8], at: usize) -> u16
    requires { at + tag_size ≤ length frame.now }
    ensures { result ≡ tpid_at frame.now at }
{
    be16(frame, at)
}

/// The content of a tag that stands at an offset, with the bit that says that there is one.
#[inline]
#[tactic(auto, unfolding(spec_frames::specs::Ethernet::tci_at))]
pub fn tci_at(frame: &[u8], at: usize) -> u16
    requires { at + tag_size ≤ length frame.now }
    ensures { result ≡ tci_at frame.now at }
{
    be16(frame, at + TYPE_SIZE) | TAG_BIT
}

/// Whether a SNAP header and a type stand at an offset.
#[inline]
fn is_snap(frame: &[u8], at: usize) -> bool
    requires { at ≤ length frame.now }
    ensures { result ≡ is_snap frame.now at }
{
    at + SNAP_SIZE + TYPE_SIZE <= frame.len()
        && be48(frame, at) == SNAP
        && be16(frame, at + SNAP_SIZE) >= LEAST_TYPE
}

/// What is carried after the type or length at an offset.
#[inline]
#[tactic(auto, unfolding(spec_frames::specs::Ethernet::carried_by))]
fn carried_by(frame: &[u8], at: usize) -> Carried
    requires { at + type_size ≤ length frame.now }
    ensures value { result ≡ carried_by frame.now at }
    ensures within { result.at ≤ length frame.now }
{
    let number = be16(frame, at);
    let after = at + TYPE_SIZE;
    if number >= LEAST_TYPE {
        Carried {
            dl_type: number,
            at: after,
        }
    } else if is_snap(frame, after) {
        Carried {
            dl_type: be16(frame, after + SNAP_SIZE),
            at: after + SNAP_SIZE + TYPE_SIZE,
        }
    } else {
        Carried {
            dl_type: NO_TYPE,
            at: after,
        }
    }
}

/// What a frame carries that has a whole header and so many tags.
#[inline]
#[tactic(auto, unfolding(spec_frames::specs::Ethernet::carried))]
pub fn carried(frame: &[u8], tags: u8) -> Carried
    requires few { tags ≤ 2 }
    requires tags { tags ≡ tag_count frame.now }
    requires room { type_at + tags * tag_size + type_size ≤ length frame.now }
    ensures value { result ≡ carried frame.now }
    ensures within { result.at ≤ length frame.now }
{
    carried_by(frame, TYPE_AT + usize::from(tags) * TAG_SIZE)
}

//! The numbers of a key in few words, which are masked and compared at once, and the mark that is made of them.

ghost use Rattle.std.specs.Prelude.{◌≡◌, List, ℕ};
ghost use Rattle.spec_keys.specs.Keys.{masked, same, IsKey};
ghost use Rattle.masked_map.specs.declared.fields.CompactFields.{CompactFields};
ghost use Rattle.masked_map.specs.Compact.{list_of};
ghost use Rattle.masked_map.specs.Marks.{header_of, addresses_of, ports_of, mark_of, mixed_in, FitsHeader, FitsAddresses, FitsPorts};

use crate::fields::CompactFields;
use ovs_fields::{join_8, join_16, join_32};

/// An odd number near 2^64 divided by the golden ratio: multiplied by it, numbers that are close come far apart.
const SPREAD: u64 = 0x9e37_79b9_7f4a_7c15;

/// The compact fields of a key, or of a mask, in the words that they feed to a hash function. Each is read as it lies.
#[derive(Clone, Copy)]
pub(crate) struct KeyWords {
    pub(crate) dl_src: u64,
    pub(crate) dl_dst: u64,
    /// The tag, and of IP the protocol, the type of service, the time to live and whether it is a fragment.
    pub(crate) header: u64,
    /// The source and the destination of IPv4.
    pub(crate) addresses: u64,
    /// The port of the switch, the Ethernet type, and the ports of the source and the destination.
    pub(crate) ports: u64,
}

impl KeyWords {
    ghost use Rattle.masked_map.specs.Marks.{AreWordsOf, Fits};

    /// Those of compact fields.
    #[inline(always)]
    pub(crate) fn of(fields: &CompactFields) -> KeyWords
        ensures words { AreWordsOf result (list_of fields.now) }
        ensures fits { Fits fields.now }
    {
        KeyWords {
            dl_src: fields.dl_src,
            dl_dst: fields.dl_dst,
            header: header_of(fields),
            addresses: addresses_of(fields),
            ports: ports_of(fields),
        }
    }

    /// Those of a key under a mask, by the words of both.
    #[inline(always)]
    pub(crate) fn and(&self, mask: &KeyWords) -> KeyWords
        ensures { (key bits : List ℕ) → IsKey key → IsKey bits → AreWordsOf self.now key → AreWordsOf mask.now bits
            → AreWordsOf result (masked key bits) }
    {
        KeyWords {
            dl_src: self.dl_src & mask.dl_src,
            dl_dst: self.dl_dst & mask.dl_dst,
            header: self.header & mask.header,
            addresses: self.addresses & mask.addresses,
            ports: self.ports & mask.ports,
        }
    }

    /// Whether they are the words of the same compact fields.
    #[inline(always)]
    pub(crate) fn are_same(&self, other: &KeyWords) -> bool
        ensures { (a b : CompactFields) → Fits a → Fits b → AreWordsOf self.now (list_of a) → AreWordsOf other.now (list_of b)
            → result ≡ same (list_of a) (list_of b) }
    {
        (self.dl_src == other.dl_src)
            & (self.dl_dst == other.dl_dst)
            & (self.header == other.header)
            & (self.addresses == other.addresses)
            & (self.ports == other.ports)
    }

    /// The mark of the key: a number whose upper bits are mixed best.
    #[inline(always)]
    pub(crate) fn mark(&self) -> u64
        ensures { (key : List ℕ) → AreWordsOf self.now key → result ≡ mark_of key }
    {
        let hardware = mixed_in(mixed_in(0, self.dl_src), self.dl_dst);
        mixed_in(
            mixed_in(mixed_in(hardware, self.header), self.addresses),
            self.ports,
        )
    }
}

#[inline(always)]
fn header_of(fields: &CompactFields) -> u64
    ensures value { result ≡ header_of (list_of fields.now) }
    ensures fits { FitsHeader fields.now }
{
    let tag = join_16(fields.vlan_tpid, fields.vlan_tci);
    let ip = join_16(
        join_8(fields.nw_proto, fields.nw_tos),
        join_8(fields.nw_ttl, fields.ip_frag),
    );
    join_32(tag, ip)
}

#[inline(always)]
fn addresses_of(fields: &CompactFields) -> u64
    ensures value { result ≡ addresses_of (list_of fields.now) }
    ensures fits { FitsAddresses fields.now }
{
    join_32(fields.nw_src, fields.nw_dst)
}

#[inline(always)]
fn ports_of(fields: &CompactFields) -> u64
    ensures value { result ≡ ports_of (list_of fields.now) }
    ensures fits { FitsPorts fields.now }
{
    join_32(
        join_16(fields.in_port, fields.dl_type),
        join_16(fields.tp_src, fields.tp_dst),
    )
}

/// A mark with one word more.
#[inline(always)]
fn mixed_in(mark: u64, word: u64) -> u64
    ensures { result ≡ mixed_in mark word }
{
    mark.wrapping_add(word).wrapping_mul(SPREAD)
}

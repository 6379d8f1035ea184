//! What keys and masks feed to hash functions: their numbers, in as few words as hold them.

ghost use Rattle.std.specs.Prelude.{◌≡◌};
ghost use Rattle.std.specs.List.{fold};
ghost use Rattle.spec_keys.specs.Fields.{register_fields};
ghost use Rattle.spec_keys.specs.Keys.{are_zero};
ghost use Rattle.ovs_fields.specs.Feeding.{header_writes, inner_tag_writes, ipv6_writes, halves_writes, arp_writes, register_writes, list_writes};
ghost use Rattle.ovs_fields.specs.Lists.{list_of};

use crate::fields::Fields;
use crate::hash::registers_are_zero;
use crate::joined::{join_8, join_16, join_32, join_64};
use std::hash::Hasher;

/// Feeds all numbers. A part of the fields that is 0 in most keys feeds nothing where it is 0.
pub(crate) fn feed<H: Hasher>(fields: &Fields, state: &mut H)
    ensures { state.new ≡ fold H.write state.old (list_writes (list_of fields.now)) }
{
    feed_headers(fields, state);
    feed_inner_tag(fields, state);
    feed_ipv6_addresses(fields, state);
    feed_arp_addresses(fields, state);
    feed_registers(fields, state);
}

/// Feeds the fields that the frames of most protocols have.
///
/// `FoldHasher` multiplies by the second half of 16 bytes that it is fed: where that half cancels the constant that it adds,
/// all before it is lost. So no half here is a number that a frame states in all of its 64 bits.
#[inline]
fn feed_headers<H: Hasher>(fields: &Fields, state: &mut H)
    ensures { state.new ≡ fold H.write state.old (header_writes (list_of fields.now)) }
{
    let addresses = join_32(fields.nw_src, fields.nw_dst);
    let ports = join_32(
        join_16(fields.in_port, fields.dl_type),
        join_16(fields.tp_src, fields.tp_dst),
    );
    let tag = join_16(fields.vlan_tpid, fields.vlan_tci);
    let header = join_16(
        join_8(fields.nw_proto, fields.nw_tos),
        join_8(fields.nw_ttl, fields.ip_frag),
    );
    state.write_u128(join_64(fields.dl_src, fields.dl_dst));
    state.write_u128(join_64(join_32(tag, header), addresses));
    state.write_u64(ports);
}

/// Feeds the inner tag, if there is one.
#[inline]
fn feed_inner_tag<H: Hasher>(fields: &Fields, state: &mut H)
    ensures { state.new ≡ fold H.write state.old (inner_tag_writes (list_of fields.now)) }
{
    if fields.vlan_tci2 == 0 && fields.vlan_tpid2 == 0 {
        return;
    }
    state.write_u32(join_16(fields.vlan_tpid2, fields.vlan_tci2));
}

/// Feeds the addresses of IPv6, if there are any.
#[inline]
fn feed_ipv6_addresses<H: Hasher>(fields: &Fields, state: &mut H)
    ensures { state.new ≡ fold H.write state.old (ipv6_writes (list_of fields.now)) }
{
    if fields.ipv6_src == 0 && fields.ipv6_dst == 0 {
        return;
    }
    feed_halves(fields.ipv6_src, state);
    feed_halves(fields.ipv6_dst, state);
}

/// Feeds an address of IPv6 as two words, so that neither is a factor by itself.
#[inline]
fn feed_halves<H: Hasher>(address: u128, state: &mut H)
    ensures { state.new ≡ fold H.write state.old (halves_writes address) }
{
    state.write_u64((address >> 64) as u64);
    state.write_u64((address % (1 << 64)) as u64);
}

/// Feeds the hardware addresses of ARP, if there are any.
#[inline]
fn feed_arp_addresses<H: Hasher>(fields: &Fields, state: &mut H)
    ensures { state.new ≡ fold H.write state.old (arp_writes (list_of fields.now)) }
{
    if fields.arp_sha == 0 && fields.arp_tha == 0 {
        return;
    }
    state.write_u128(join_64(fields.arp_sha, fields.arp_tha));
}

/// Feeds metadata and the registers, if any of them isn't 0.
#[inline]
fn feed_registers<H: Hasher>(fields: &Fields, state: &mut H)
    ensures { state.new ≡ fold H.write state.old (register_writes (list_of fields.now)) }
{
    if registers_are_zero(fields) {
        return;
    }
    state.write_u64(fields.metadata);
    state.write_u64(join_32(fields.reg0, fields.reg1));
    state.write_u64(join_32(fields.reg2, fields.reg3));
    state.write_u64(join_32(fields.reg4, fields.reg5));
    state.write_u64(join_32(fields.reg6, fields.reg7));
    state.write_u64(join_32(fields.reg8, fields.reg9));
    state.write_u64(join_32(fields.reg10, fields.reg11));
    state.write_u64(join_32(fields.reg12, fields.reg13));
    state.write_u64(join_32(fields.reg14, fields.reg15));
}

#![tactic(auto, unfolding(spec_keys::specs::Hash::field_bytes, spec_keys::specs::Hash::hash_bytes))]

ghost use Rattle.std.specs.Prelude.{◌≡◌};
ghost use Rattle.spec_base.specs.Bytes.{big_endian};
ghost use Rattle.spec_keys.specs.Fields.{register_fields};
ghost use Rattle.spec_keys.specs.Keys.{are_zero};
ghost use Rattle.spec_keys.specs.Hash.{hash_bytes, field_bytes, key_hash};
ghost use Rattle.ovs_fields.specs.Lists.{list_of};
ghost use Rattle.ovs_fields.specs.Packed.{numbers};
ghost use Rattle.ovs_fields.specs.Runs.{ethernet, ipv4_addresses, ipv6_addresses, ip_header, arp_addresses, ports, tags};

use crate::Key;
use crate::field_list::with_registers;
use crate::fields::Fields;

/// The offset basis and the prime of FNV-1a with 64 bits.
const OFFSET_BASIS: u64 = 0xcbf2_9ce4_8422_2325;

const PRIME: u64 = 0x100_0000_01b3;

/// Powers of the prime, modulo 2^64: what runs of so many bytes of 0 multiply by.
const PRIME_TO_6: u64 = 0xdc96_6432_edf1_c639;

const PRIME_TO_12: u64 = 0xf543_83a0_5ace_38b1;

const PRIME_TO_32: u64 = 0x0558_b2e6_a2f6_4081;

const PRIME_TO_72: u64 = 0x6319_8598_fb7e_2b21;

/// The hash of a key: FNV-1a of 64 bits (draft-eastlake-fnv) over the bytes of its fields, in their order, each field
/// most significant byte first in as many whole bytes as it needs.
pub fn key_hash(key: &Key) -> u64
    ensures { result ≡ key_hash (numbers key.now) }
{
    let fields = &key.fields;
    let hash = hash_bytes(OFFSET_BASIS, &fields.in_port.to_be_bytes());
    let hash = hash_registers(hash, fields);
    let hash = hash_ethernet(hash, fields);
    let hash = hash_ipv4_addresses(hash, fields);
    let hash = hash_ipv6_addresses(hash, fields);
    let hash = hash_ip_header(hash, fields);
    let hash = hash_arp_addresses(hash, fields);
    let hash = hash_ports(hash, fields);
    hash_tags(hash, fields)
}

/// The hash after more bytes.
#[inline]
fn hash_bytes(hash: u64, bytes: &[u8]) -> u64
    ensures { result ≡ hash_bytes hash bytes.now }
{
    let mut hash = hash;
    for byte in bytes {
        hash = (hash ^ u64::from(*byte)).wrapping_mul(PRIME);
    }
    hash
}

/// The hash after the six low bytes of a number.
#[inline]
fn hash_mac(hash: u64, address: u64) -> u64
    ensures { result ≡ hash_bytes hash (big_endian 6 address) }
{
    hash_bytes(hash, &address.to_be_bytes()[2..])
}

macro_rules! all_zero {
    (($fields:ident) $($name:ident)*) => {
        $(($fields.$name == 0) &)* true
    };
}

/// Whether metadata and the registers are 0, as in the key of every frame.
pub(crate) fn registers_are_zero(fields: &Fields) -> bool
    ensures { result ≡ are_zero register_fields (list_of fields.now) }
{
    with_registers!(all_zero(fields))
}

macro_rules! hash_each {
    (($hash:ident, $fields:ident) $($name:ident)*) => {{
        $(let $hash = hash_bytes($hash, &$fields.$name.to_be_bytes());)*
        $hash
    }};
}

/// The hash after metadata and the registers.
fn hash_registers(hash: u64, fields: &Fields) -> u64
    ensures { result ≡ hash_bytes hash (field_bytes register_fields (list_of fields.now)) }
{
    if registers_are_zero(fields) {
        return hash.wrapping_mul(PRIME_TO_72);
    }
    with_registers!(hash_each(hash, fields))
}

/// The hash after the Ethernet and VLAN headers.
fn hash_ethernet(hash: u64, fields: &Fields) -> u64
    ensures { result ≡ hash_bytes hash (field_bytes ethernet (list_of fields.now)) }
{
    let hash = hash_mac(hash, fields.dl_src);
    let hash = hash_mac(hash, fields.dl_dst);
    let hash = hash_bytes(hash, &fields.dl_type.to_be_bytes());
    hash_bytes(hash, &fields.vlan_tci.to_be_bytes())
}

/// The hash after the addresses of IPv4 or ARP.
fn hash_ipv4_addresses(hash: u64, fields: &Fields) -> u64
    ensures { result ≡ hash_bytes hash (field_bytes ipv4_addresses (list_of fields.now)) }
{
    let hash = hash_bytes(hash, &fields.nw_src.to_be_bytes());
    hash_bytes(hash, &fields.nw_dst.to_be_bytes())
}

/// The hash after the addresses of IPv6.
fn hash_ipv6_addresses(hash: u64, fields: &Fields) -> u64
    ensures { result ≡ hash_bytes hash (field_bytes ipv6_addresses (list_of fields.now)) }
{
    if fields.ipv6_src == 0 && fields.ipv6_dst == 0 {
        return hash.wrapping_mul(PRIME_TO_32);
    }
    let hash = hash_bytes(hash, &fields.ipv6_src.to_be_bytes());
    hash_bytes(hash, &fields.ipv6_dst.to_be_bytes())
}

/// The hash after the rest of the IP header.
fn hash_ip_header(hash: u64, fields: &Fields) -> u64
    ensures { result ≡ hash_bytes hash (field_bytes ip_header (list_of fields.now)) }
{
    let hash = hash_bytes(hash, &fields.nw_proto.to_be_bytes());
    let hash = hash_bytes(hash, &fields.nw_tos.to_be_bytes());
    let hash = hash_bytes(hash, &fields.nw_ttl.to_be_bytes());
    hash_bytes(hash, &fields.ip_frag.to_be_bytes())
}

/// The hash after the hardware addresses of ARP.
fn hash_arp_addresses(hash: u64, fields: &Fields) -> u64
    ensures { result ≡ hash_bytes hash (field_bytes arp_addresses (list_of fields.now)) }
{
    if fields.arp_sha == 0 && fields.arp_tha == 0 {
        return hash.wrapping_mul(PRIME_TO_12);
    }
    let hash = hash_mac(hash, fields.arp_sha);
    hash_mac(hash, fields.arp_tha)
}

/// The hash after the ports, or the type and code of ICMP.
fn hash_ports(hash: u64, fields: &Fields) -> u64
    ensures { result ≡ hash_bytes hash (field_bytes ports (list_of fields.now)) }
{
    let hash = hash_bytes(hash, &fields.tp_src.to_be_bytes());
    hash_bytes(hash, &fields.tp_dst.to_be_bytes())
}

/// The hash after the types of tags, and the content of an inner one.
fn hash_tags(hash: u64, fields: &Fields) -> u64
    ensures { result ≡ hash_bytes hash (field_bytes tags (list_of fields.now)) }
{
    if fields.vlan_tpid == 0 && fields.vlan_tci2 == 0 && fields.vlan_tpid2 == 0 {
        return hash.wrapping_mul(PRIME_TO_6);
    }
    let hash = hash_bytes(hash, &fields.vlan_tpid.to_be_bytes());
    let hash = hash_bytes(hash, &fields.vlan_tci2.to_be_bytes());
    hash_bytes(hash, &fields.vlan_tpid2.to_be_bytes())
}

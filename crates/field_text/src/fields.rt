ghost use Rattle.std.specs.Prelude.{◌≡◌, ◌<◌, ℕ, List, ◌∷◌, find, map, length, not, IfSome, IsTrue};
ghost use Rattle.spec_actions.specs.Named.{is_printed_alone};
ghost use Rattle.spec_flow_text.specs.Names as names;

use crate::words::{begins_with_one_of, is_one_of};
use spec_actions::NamedField;

// Those that a flow may name.
const FIELDS: [NamedField; 49] = [
    NamedField::InPort,
    NamedField::Metadata,
    NamedField::Reg0,
    NamedField::Reg1,
    NamedField::Reg2,
    NamedField::Reg3,
    NamedField::Reg4,
    NamedField::Reg5,
    NamedField::Reg6,
    NamedField::Reg7,
    NamedField::Reg8,
    NamedField::Reg9,
    NamedField::Reg10,
    NamedField::Reg11,
    NamedField::Reg12,
    NamedField::Reg13,
    NamedField::Reg14,
    NamedField::Reg15,
    NamedField::DlSrc,
    NamedField::DlDst,
    NamedField::DlType,
    NamedField::VlanTci,
    NamedField::VlanVid,
    NamedField::VlanPcp,
    NamedField::NwSrc,
    NamedField::NwDst,
    NamedField::ArpSpa,
    NamedField::ArpTpa,
    NamedField::Ipv6Src,
    NamedField::Ipv6Dst,
    NamedField::NwProto,
    NamedField::ArpOp,
    NamedField::NwTos,
    NamedField::IpDscp,
    NamedField::NwEcn,
    NamedField::NwTtl,
    NamedField::IpFrag,
    NamedField::ArpSha,
    NamedField::ArpTha,
    NamedField::TpSrc,
    NamedField::TpDst,
    NamedField::TcpSrc,
    NamedField::TcpDst,
    NamedField::UdpSrc,
    NamedField::UdpDst,
    NamedField::IcmpType,
    NamedField::IcmpCode,
    NamedField::Icmpv6Type,
    NamedField::Icmpv6Code,
];

// The names of a field; the first is printed.
fn names_of(field: NamedField) -> &'static [&'static str]
    ensures names { map (λ w. w.now) result.now ≡ names.names_of field }
    ensures some { 0 < length result.now }
{
    match field {
        NamedField::InPort => &["in_port", "NXM_OF_IN_PORT"],
        NamedField::Metadata => &["metadata", "OXM_OF_METADATA"],
        NamedField::Reg0 => &["reg0", "NXM_NX_REG0"],
        NamedField::Reg1 => &["reg1", "NXM_NX_REG1"],
        NamedField::Reg2 => &["reg2", "NXM_NX_REG2"],
        NamedField::Reg3 => &["reg3", "NXM_NX_REG3"],
        NamedField::Reg4 => &["reg4", "NXM_NX_REG4"],
        NamedField::Reg5 => &["reg5", "NXM_NX_REG5"],
        NamedField::Reg6 => &["reg6", "NXM_NX_REG6"],
        NamedField::Reg7 => &["reg7", "NXM_NX_REG7"],
        NamedField::Reg8 => &["reg8", "NXM_NX_REG8"],
        NamedField::Reg9 => &["reg9", "NXM_NX_REG9"],
        NamedField::Reg10 => &["reg10", "NXM_NX_REG10"],
        NamedField::Reg11 => &["reg11", "NXM_NX_REG11"],
        NamedField::Reg12 => &["reg12", "NXM_NX_REG12"],
        NamedField::Reg13 => &["reg13", "NXM_NX_REG13"],
        NamedField::Reg14 => &["reg14", "NXM_NX_REG14"],
        NamedField::Reg15 => &["reg15", "NXM_NX_REG15"],
        NamedField::DlSrc => &["dl_src", "eth_src", "NXM_OF_ETH_SRC"],
        NamedField::DlDst => &["dl_dst", "eth_dst", "NXM_OF_ETH_DST"],
        NamedField::DlType => &["dl_type", "eth_type", "NXM_OF_ETH_TYPE"],
        NamedField::VlanTci => &["vlan_tci", "NXM_OF_VLAN_TCI"],
        NamedField::VlanVid => &["vlan_vid", "OXM_OF_VLAN_VID"],
        NamedField::VlanPcp => &["vlan_pcp", "dl_vlan_pcp", "OXM_OF_VLAN_PCP"],
        NamedField::NwSrc => &["nw_src", "ip_src", "NXM_OF_IP_SRC"],
        NamedField::NwDst => &["nw_dst", "ip_dst", "NXM_OF_IP_DST"],
        NamedField::ArpSpa => &["arp_spa", "NXM_OF_ARP_SPA"],
        NamedField::ArpTpa => &["arp_tpa", "NXM_OF_ARP_TPA"],
        NamedField::Ipv6Src => &["ipv6_src", "NXM_NX_IPV6_SRC"],
        NamedField::Ipv6Dst => &["ipv6_dst", "NXM_NX_IPV6_DST"],
        NamedField::NwProto => &["nw_proto", "ip_proto", "NXM_OF_IP_PROTO"],
        NamedField::ArpOp => &["arp_op", "NXM_OF_ARP_OP"],
        NamedField::NwTos => &["nw_tos", "NXM_OF_IP_TOS"],
        NamedField::IpDscp => &["ip_dscp", "OXM_OF_IP_DSCP"],
        NamedField::NwEcn => &["nw_ecn", "ip_ecn", "NXM_NX_IP_ECN"],
        NamedField::NwTtl => &["nw_ttl", "NXM_NX_IP_TTL"],
        NamedField::IpFrag => &["ip_frag", "NXM_NX_IP_FRAG"],
        NamedField::ArpSha => &["arp_sha", "NXM_NX_ARP_SHA"],
        NamedField::ArpTha => &["arp_tha", "NXM_NX_ARP_THA"],
        NamedField::TpSrc => &["tp_src"],
        NamedField::TpDst => &["tp_dst"],
        NamedField::TcpSrc => &["tcp_src", "NXM_OF_TCP_SRC"],
        NamedField::TcpDst => &["tcp_dst", "NXM_OF_TCP_DST"],
        NamedField::UdpSrc => &["udp_src", "NXM_OF_UDP_SRC"],
        NamedField::UdpDst => &["udp_dst", "NXM_OF_UDP_DST"],
        NamedField::IcmpType => &["icmp_type", "NXM_OF_ICMP_TYPE"],
        NamedField::IcmpCode => &["icmp_code", "NXM_OF_ICMP_CODE"],
        NamedField::Icmpv6Type => &["icmpv6_type", "NXM_NX_ICMPV6_TYPE"],
        NamedField::Icmpv6Code => &["icmpv6_code", "NXM_NX_ICMPV6_CODE"],
        NamedField::VlanTpid => &["vlan_tpid"],
        NamedField::VlanTci2 => &["vlan_tci2"],
        NamedField::VlanTpid2 => &["vlan_tpid2"],
    }
}

/// The name of a field that is printed.
pub fn name_of(field: NamedField) -> &'static str
    ensures { result.now ≡ names.name_of field }
{
    names_of(field)[0]
}

// Whether a field is called so.
fn is_called(name: &[u8], field: NamedField) -> bool
    ensures { result ≡ names.is_called name.now field }
{
    is_one_of(names_of(field), name)
}

// Fields among which a name that begins with this byte is found as among all. For the letters of names in lower case they
// are those that have such a name; none is called as `cookie`, `hard_age` or `priority` begin.
fn fields_with(first: u8) -> &'static [NamedField]
    ensures { (rest : List ℕ)
        → find (names.is_called (first ∷ rest)) result.now ≡ names.field_named (first ∷ rest) }
{
    match first {
        b'a' => &[
            NamedField::ArpSpa,
            NamedField::ArpTpa,
            NamedField::ArpOp,
            NamedField::ArpSha,
            NamedField::ArpTha,
        ],
        b'd' => &[
            NamedField::DlSrc,
            NamedField::DlDst,
            NamedField::DlType,
            NamedField::VlanPcp,
        ],
        b'e' => &[NamedField::DlSrc, NamedField::DlDst, NamedField::DlType],
        b'i' => &[
            NamedField::InPort,
            NamedField::NwSrc,
            NamedField::NwDst,
            NamedField::Ipv6Src,
            NamedField::Ipv6Dst,
            NamedField::NwProto,
            NamedField::IpDscp,
            NamedField::NwEcn,
            NamedField::IpFrag,
            NamedField::IcmpType,
            NamedField::IcmpCode,
            NamedField::Icmpv6Type,
            NamedField::Icmpv6Code,
        ],
        b'm' => &[NamedField::Metadata],
        b'n' => &[
            NamedField::NwSrc,
            NamedField::NwDst,
            NamedField::NwProto,
            NamedField::NwTos,
            NamedField::NwEcn,
            NamedField::NwTtl,
        ],
        b't' => &[
            NamedField::TpSrc,
            NamedField::TpDst,
            NamedField::TcpSrc,
            NamedField::TcpDst,
        ],
        b'u' => &[NamedField::UdpSrc, NamedField::UdpDst],
        b'v' => &[
            NamedField::VlanTci,
            NamedField::VlanVid,
            NamedField::VlanPcp,
        ],
        b'c' | b'h' | b'p' => &[],
        _ => &FIELDS,
    }
}

// Fields among which a name is found as among all.
#[tactic(auto, using(crate::proofs::FirstLetters::found_by_first, crate::proofs::FirstLetters::no_name))]
fn candidates(name: &[u8]) -> &'static [NamedField]
    ensures { find (names.is_called name.now) result.now ≡ names.field_named name.now }
{
    match name.first() {
        None => &[],
        Some(first) => fields_with(*first),
    }
}

// The first of some fields that is called so.
fn first_called(fields: &[NamedField], name: &[u8]) -> Option<NamedField>
    ensures { result ≡ find (names.is_called name.now) fields.now }
{
    fields.iter().copied().find(|field| is_called(name, *field))
}

/// The field that a name means, which is one that a flow may name.
#[tactic(auto, using(crate::proofs::TextNames::found_is_in_text))]
pub fn field_named(name: &[u8]) -> Option<NamedField>
    ensures value { result ≡ names.field_named name.now }
    ensures in_text { IfSome result (λ field. IsTrue (not (is_printed_alone field))) }
{
    first_called(candidates(name), name)
}

// How the names of fields that are known and left out begin.
const FIELD_FAMILIES_LEFT_OUT: [&str; 9] = [
    "tun_", "tunnel", "mpls", "sctp", "nd_", "ct_", "xreg", "xxreg", "nsh_",
];

// The others that are.
const FIELDS_LEFT_OUT: [&str; 21] = [
    "recirc_id",
    "dp_hash",
    "pkt_mark",
    "conj_id",
    "actset_output",
    "skb_priority",
    "packet_type",
    "in_port_oxm",
    "tcp_flags",
    "ipv6_label",
    "rarp",
    "idle_timeout",
    "hard_timeout",
    "importance",
    "out_port",
    "out_group",
    "check_overlap",
    "send_flow_rem",
    "reset_counts",
    "no_packet_counts",
    "no_byte_counts",
];

/// Whether a name is that of a field or of an item of a flow that is known and left out.
#[tactic(auto, unfolding(spec_flow_text::specs::Names::is_field_left_out))]
pub fn is_field_left_out(name: &[u8]) -> bool
    ensures { result ≡ names.is_field_left_out name.now }
{
    begins_with_one_of(&FIELD_FAMILIES_LEFT_OUT, name) || is_one_of(&FIELDS_LEFT_OUT, name)
}

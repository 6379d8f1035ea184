/// A field as the flow text names it: one variant for each name, by its first name in ovs-fields(7).
///
/// Several names may stand for bits of one field of the key, as `nw_src` and `arp_spa` do. The last three aren't names of the
/// flow text: by them the type of a VLAN tag, and an inner tag, are told where megaflows and keys are printed.
#[derive(Clone, Copy, PartialEq, Eq)]
pub enum NamedField {
    InPort,
    Metadata,
    Reg0,
    Reg1,
    Reg2,
    Reg3,
    Reg4,
    Reg5,
    Reg6,
    Reg7,
    Reg8,
    Reg9,
    Reg10,
    Reg11,
    Reg12,
    Reg13,
    Reg14,
    Reg15,
    DlSrc,
    DlDst,
    DlType,
    VlanTci,
    VlanVid,
    VlanPcp,
    NwSrc,
    NwDst,
    ArpSpa,
    ArpTpa,
    Ipv6Src,
    Ipv6Dst,
    NwProto,
    ArpOp,
    NwTos,
    IpDscp,
    NwEcn,
    NwTtl,
    IpFrag,
    ArpSha,
    ArpTha,
    TpSrc,
    TpDst,
    TcpSrc,
    TcpDst,
    UdpSrc,
    UdpDst,
    IcmpType,
    IcmpCode,
    Icmpv6Type,
    Icmpv6Code,
    VlanTpid,
    VlanTci2,
    VlanTpid2,
}

/// What a packet has to be for a write to a named field to act (ovs-fields(7), "Prerequisites").
#[derive(Clone, Copy)]
pub enum Prerequisite {
    /// Any packet.
    Nothing,
    /// An Ethernet type of 0x0800.
    Ipv4,
    /// An Ethernet type of 0x86dd.
    Ipv6,
    /// IPv4 or IPv6.
    Ip,
    /// An Ethernet type of 0x0806.
    Arp,
    /// IP with protocol 6, and no fragment.
    Tcp,
    /// IP with protocol 17, and no fragment.
    Udp,
    /// TCP or UDP.
    TcpOrUdp,
    /// IPv4 with protocol 1.
    Icmp,
    /// IPv6 with protocol 58.
    Icmp6,
    /// A VLAN tag: bit 0x1000 of `vlan_tci`.
    Tag,
}

use spec_keys::FieldId;

/// How the value of a named field is written (ovs-fields(7), "Formats").
#[derive(Clone, Copy)]
pub enum ValueForm {
    /// The number of a port.
    Port,
    Number,
    Mac,
    Ipv4,
    Ipv6,
    /// A word for the kind of a fragment.
    Fragment,
}

/// What a flow has to state, as exact values, for a field of its match to be kept (ovs-fields(7), "Prerequisites").
#[derive(Clone, Copy)]
pub enum MatchPrerequisite {
    Nothing,
    Ipv6,
    Arp,
    Ipv4OrArp,
    Ip,
    IpOrArp,
    Tcp,
    Udp,
    TcpOrUdp,
    /// ICMP over IPv4 or ICMPv6.
    AnyIcmp,
    Icmp6,
}

/// Which part of a VLAN tag an item is about. An item on the identifier and one on the priority may both say that
/// there is a tag.
#[derive(Clone, Copy)]
pub enum TagPart {
    Neither,
    Identifier,
    Priority,
}

/// Bits of a field that an item states.
#[derive(Clone, Copy)]
pub struct Part {
    pub field: FieldId,
    /// Its bits outside `mask` are 0.
    pub value: u128,
    pub mask: u128,
    pub needs: MatchPrerequisite,
    pub tag: TagPart,
}

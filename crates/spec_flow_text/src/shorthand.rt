/// A word that states an Ethernet type, and the protocol of IP where it has one (ovs-fields(7), "Shorthand").
#[derive(Clone, Copy)]
pub enum Shorthand {
    Ip,
    Ipv6,
    Arp,
    Icmp,
    Tcp,
    Udp,
    Icmp6,
    Tcp6,
    Udp6,
}

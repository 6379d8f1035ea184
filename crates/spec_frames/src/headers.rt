/// What a frame carries by its Ethernet header: the type, and the offset at which that begins.
#[derive(Clone, Copy)]
pub struct Carried {
    pub dl_type: u16,
    pub at: usize,
}

/// Which part of an IP packet stands in a frame.
#[derive(Clone, Copy)]
pub enum Fragment {
    /// It is no fragment.
    Whole,
    /// The first one, which has the transport header.
    First,
    Later,
}

/// What an IP packet carries: its protocol, and the offset at which that begins.
#[derive(Clone, Copy)]
pub struct UpperLayer {
    pub protocol: u8,
    pub at: usize,
    pub fragment: Fragment,
    /// Whether a routing header was passed.
    pub routed: bool,
}

/// An IP packet without its addresses.
#[derive(Clone, Copy)]
pub struct Datagram {
    /// Type of service, or traffic class.
    pub tos: u8,
    /// Time to live, or hop limit.
    pub ttl: u8,
    /// The offset after the packet, as far as the frame has it.
    pub end: usize,
    pub upper: UpperLayer,
}

/// The network header of a frame: the offset at which it begins, and what it says.
#[derive(Clone, Copy)]
pub enum Network {
    Nothing,
    Arp(usize),
    Ipv4(usize, Datagram),
    Ipv6(usize, Datagram),
}

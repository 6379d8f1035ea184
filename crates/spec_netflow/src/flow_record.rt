/// What an export tells of a flow: packets of one class, which came in at one port.
#[derive(Clone, Copy, PartialEq, Eq)]
pub struct FlowRecord {
    /// The IPv4 address of the source.
    pub src: u32,
    /// The IPv4 address of the destination.
    pub dst: u32,
    /// The port where the packets came in.
    pub input: u16,
    /// The first port to which the first packet was sent; 0 where it was sent nowhere.
    pub output: u16,
    /// How many packets there are.
    pub packets: u32,
    /// The sum of their total lengths, in bytes.
    pub octets: u32,
    /// When the first packet came in, in milliseconds since the run began.
    pub first: u32,
    /// When the last packet came in, in milliseconds since the run began.
    pub last: u32,
    /// The port of the source; 0 for ICMP.
    pub sport: u16,
    /// The port of the destination; type * 256 + code for ICMP.
    pub dport: u16,
    /// The control bits of all TCP headers (RFC 9293, 3.1).
    pub flags: u8,
    /// The protocol over IPv4.
    pub proto: u8,
    /// The type of service.
    pub tos: u8,
}

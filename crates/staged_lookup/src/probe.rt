/// The packet's metadata and registers.
pub(crate) const METADATA: u8 = 0;

/// Ethernet, with the tag.
pub(crate) const ETHERNET: u8 = 1;

/// IP and ARP.
pub(crate) const NETWORK: u8 = 2;

/// Ports. This stage reaches the whole mask.
pub(crate) const PORTS: u8 = 3;

/// What a subtable answers about a key.
#[derive(Clone, Copy)]
pub enum Probe {
    /// This stage is the first on which no rule agrees with the key, by its bits and those of the stages before. It is
    /// from 0, the metadata, over 1, Ethernet, and 2, IP and ARP, to 3, the ports.
    Ended { stage: u8 },
    /// Of the rules that the key matches, this one wins.
    Best { rule: u32, priority: u16 },
}

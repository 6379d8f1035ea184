use crate::NamedField;
use spec_keys::FieldId;

/// Bits `low` to `high` of a named field, both included and counted from its least bit: `NAME[low..high]`.
#[derive(Clone, Copy, PartialEq, Eq)]
pub struct Slice {
    pub name: NamedField,
    pub low: u32,
    pub high: u32,
}

/// An action of a flow (ovs-actions(7)).
#[derive(Clone, Copy, PartialEq, Eq)]
pub enum OfAction {
    /// Send to a port.
    Output(u16),
    /// Send to the port whose number stands in these bits.
    OutputField(Slice),
    /// Send back to the port where the packet came in.
    InPort,
    /// Send to every other port.
    All,
    /// Send to every other port.
    Flood,
    /// Look up in a table, and then go on here.
    Resubmit(u8),
    /// Look up in a table.
    Goto(u8),
    /// Write the bits of `value` where `mask` has 1.
    Set {
        name: NamedField,
        value: u128,
        mask: u128,
    },
    /// Copy bits.
    Move {
        from: Slice,
        to: Slice,
    },
    /// Lower the TTL or hop limit by one.
    DecTtl,
    /// Add a VLAN tag of this type (IEEE 802.1Q), 0x8100 or 0x88a8.
    PushVlan(u16),
    /// Take the outer VLAN tag away.
    PopVlan,
    /// Write the VLAN identifier, adding a tag where there is none.
    SetVid(u16),
    /// Write the VLAN priority, adding a tag where there is none.
    SetPcp(u8),
}

/// An action on a frame.
#[derive(Clone, Copy, PartialEq, Eq)]
pub enum DpAction {
    /// Send the frame as it now is.
    Output(u16),
    /// Take the outer VLAN tag away.
    PopVlan,
    /// Add a VLAN tag of this type outside of those that there are, with this content; its bit 0x1000 is sent as 0.
    PushVlan {
        tpid: u16,
        tci: u16,
    },
    /// Write the bits of `value` where `mask` has 1.
    Set {
        field: FieldId,
        value: u128,
        mask: u128,
    },
}

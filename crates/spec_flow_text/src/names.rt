use crate::Shorthand;
use spec_actions::NamedField;

/// What the name of an item of a flow means (ovs-ofctl(8), "Flow Syntax").
#[derive(Clone, Copy)]
pub enum ItemName {
    Field(NamedField),
    Shorthand(Shorthand),
    /// `dl_vlan`: the VLAN identifier of a tagged frame, or that there is no tag.
    DlVlan,
    Table,
    Priority,
    Cookie,
    /// What a dump tells of a flow and an edit ignores, as `n_packets`.
    Statistic,
    Actions,
    /// A name of ovs-fields(7) or ovs-ofctl(8) that this profile leaves out.
    Unsupported,
}

/// What the name of an item of an action list means (ovs-actions(7)).
#[derive(Clone, Copy)]
pub enum ActionName {
    /// A digit begins the item: it is the number of a port.
    Port,
    Output,
    InPort,
    All,
    Flood,
    Drop,
    Resubmit,
    GotoTable,
    Load,
    SetField,
    Move,
    /// `mod_dl_src` and its kin, each for a whole field.
    Mod(NamedField),
    ModVlanVid,
    ModVlanPcp,
    DecTtl,
    PushVlan,
    PopVlan,
    /// A name of ovs-actions(7) that this profile leaves out.
    Unsupported,
}

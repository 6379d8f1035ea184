/// What the name of an item of a mirror selects (ovs-vswitchd.conf.db(5), table Mirror).
#[derive(Clone, Copy)]
pub enum Selector {
    /// `select_src_port`: what comes in at a port.
    SrcPort,
    /// `select_dst_port`: what goes out at a port.
    DstPort,
    /// `select_all`: what comes in at any port.
    All,
}

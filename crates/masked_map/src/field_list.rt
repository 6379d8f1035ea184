/// The one list of the compact fields, in the order of the key: of each its name as a `FieldId` and in `CompactFields`, and
/// its type there. `with_compact!(made(a, b))` calls the macro `made` with its own arguments and then the list.
macro_rules! with_compact {
    ($made:ident $arguments:tt) => {
        $made!(
            $arguments
            [InPort in_port u16]
            [DlSrc dl_src u64]
            [DlDst dl_dst u64]
            [DlType dl_type u16]
            [VlanTci vlan_tci u16]
            [NwSrc nw_src u32]
            [NwDst nw_dst u32]
            [NwProto nw_proto u8]
            [NwTos nw_tos u8]
            [NwTtl nw_ttl u8]
            [IpFrag ip_frag u8]
            [TpSrc tp_src u16]
            [TpDst tp_dst u16]
            [VlanTpid vlan_tpid u16]
        )
    };
}

/// The same with the wide fields, by their names as a `FieldId`.
macro_rules! with_wide {
    ($made:ident $arguments:tt) => {
        $made!(
            $arguments
            Metadata Reg0 Reg1 Reg2 Reg3 Reg4 Reg5 Reg6 Reg7 Reg8 Reg9 Reg10 Reg11 Reg12 Reg13 Reg14 Reg15
            Ipv6Src Ipv6Dst ArpSha ArpTha VlanTci2 VlanTpid2
        )
    };
}

pub(crate) use with_compact;
pub(crate) use with_wide;

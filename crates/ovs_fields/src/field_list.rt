ghost use Rattle.std.specs.Prelude.{◌≡◌};
ghost use Rattle.spec_keys.specs.Fields.{fields};

use crate::FieldId;

/// The one list of the fields in this crate, in the order of the key: of each its name as a `FieldId` and in `Fields`,
/// its type there, its width in bits and its stage. `with_fields!(made(a, b))` calls the macro `made` with its own
/// arguments and then the list.
macro_rules! with_fields {
    ($made:ident $arguments:tt) => {
        $made!(
            $arguments
            [InPort in_port u16 16 0]
            [Metadata metadata u64 64 0]
            [Reg0 reg0 u32 32 0]
            [Reg1 reg1 u32 32 0]
            [Reg2 reg2 u32 32 0]
            [Reg3 reg3 u32 32 0]
            [Reg4 reg4 u32 32 0]
            [Reg5 reg5 u32 32 0]
            [Reg6 reg6 u32 32 0]
            [Reg7 reg7 u32 32 0]
            [Reg8 reg8 u32 32 0]
            [Reg9 reg9 u32 32 0]
            [Reg10 reg10 u32 32 0]
            [Reg11 reg11 u32 32 0]
            [Reg12 reg12 u32 32 0]
            [Reg13 reg13 u32 32 0]
            [Reg14 reg14 u32 32 0]
            [Reg15 reg15 u32 32 0]
            [DlSrc dl_src u64 48 1]
            [DlDst dl_dst u64 48 1]
            [DlType dl_type u16 16 1]
            [VlanTci vlan_tci u16 16 1]
            [NwSrc nw_src u32 32 2]
            [NwDst nw_dst u32 32 2]
            [Ipv6Src ipv6_src u128 128 2]
            [Ipv6Dst ipv6_dst u128 128 2]
            [NwProto nw_proto u8 8 2]
            [NwTos nw_tos u8 8 2]
            [NwTtl nw_ttl u8 8 2]
            [IpFrag ip_frag u8 2 2]
            [ArpSha arp_sha u64 48 2]
            [ArpTha arp_tha u64 48 2]
            [TpSrc tp_src u16 16 3]
            [TpDst tp_dst u16 16 3]
            [VlanTpid vlan_tpid u16 16 1]
            [VlanTci2 vlan_tci2 u16 16 1]
            [VlanTpid2 vlan_tpid2 u16 16 1]
        )
    };
}

/// The same with metadata and the registers alone, by their names in `Fields`.
macro_rules! with_registers {
    ($made:ident $arguments:tt) => {
        $made!(
            $arguments
            metadata reg0 reg1 reg2 reg3 reg4 reg5 reg6 reg7 reg8 reg9 reg10 reg11 reg12 reg13 reg14 reg15
        )
    };
}

/// The names of the fields from `nw_tos` on, as a macro is given them after its own arguments.
macro_rules! with_fields_from_nw_tos {
    ($made:ident $arguments:tt) => {
        $made!(
            $arguments
            nw_tos nw_ttl ip_frag arp_sha arp_tha tp_src tp_dst vlan_tpid vlan_tci2 vlan_tpid2
        )
    };
}

/// The names of the fields from `dl_src` to `nw_proto`.
macro_rules! with_fields_from_dl_src {
    ($made:ident $arguments:tt) => {
        $made!(
            $arguments
            dl_src dl_dst dl_type vlan_tci nw_src nw_dst ipv6_src ipv6_dst nw_proto
        )
    };
}

/// The names of the fields from `reg7` to `reg15`.
macro_rules! with_fields_from_reg7 {
    ($made:ident $arguments:tt) => {
        $made!(
            $arguments
            reg7 reg8 reg9 reg10 reg11 reg12 reg13 reg14 reg15
        )
    };
}

/// The names of the fields from `in_port` to `reg6`.
macro_rules! with_fields_from_in_port {
    ($made:ident $arguments:tt) => {
        $made!(
            $arguments
            in_port metadata reg0 reg1 reg2 reg3 reg4 reg5 reg6
        )
    };
}

pub(crate) use with_fields;
pub(crate) use with_fields_from_dl_src;
pub(crate) use with_fields_from_in_port;
pub(crate) use with_fields_from_nw_tos;
pub(crate) use with_fields_from_reg7;
pub(crate) use with_registers;

macro_rules! count {
    (() $([$variant:ident $($more:tt)*])*) => {
        0 $(+ one!($variant))*
    };
}

macro_rules! one {
    ($variant:ident) => { 1 };
}

/// How many fields a key has.
pub const FIELD_COUNT: usize = with_fields!(count());

macro_rules! listed {
    (() $([$variant:ident $($more:tt)*])*) => {
        [$(FieldId::$variant),*]
    };
}

static FIELDS: [FieldId; FIELD_COUNT] = with_fields!(listed());

/// The fields in the order of the key.
pub fn all_fields() -> &'static [FieldId; FIELD_COUNT]
    ensures { result.now ≡ fields }
{
    &FIELDS
}

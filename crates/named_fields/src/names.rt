ghost use Rattle.std.specs.Prelude.{◌≡◌};
ghost use Rattle.spec_actions.specs.Named.{named};
ghost use Rattle.named_fields.specs.Views.{named_view};

use ovs_fields::FieldId;
use spec_actions::{NamedField, Prerequisite};

/// The bits that a named field stands for (ovs-fields(7)).
#[derive(Clone, Copy)]
pub struct NamedBits {
    pub field: FieldId,
    /// The least of its bits in that field.
    pub low: u32,
    /// How many bits it has: 2 to 128.
    pub bits: u32,
    /// Those of its bits that a write may change.
    pub writable: u128,
    /// Whether a match may mask it.
    pub maskable: bool,
    /// What a write needs the packet to be.
    pub write_needs: Prerequisite,
}

macro_rules! table {
    ($name:ident $([$variant:ident $field:ident $low:literal $bits:literal $writable:literal $maskable:literal $needs:ident])*) => {
        match $name {
            $(NamedField::$variant => NamedBits {
                field: FieldId::$field,
                low: $low,
                bits: $bits,
                writable: $writable,
                maskable: $maskable,
                write_needs: Prerequisite::$needs,
            },)*
        }
    };
}

/// What a name stands for.
pub fn named(name: NamedField) -> NamedBits
    ensures { named_view result ≡ named name }
{
    table!(name
        [InPort InPort 0 16 0 false Nothing]
        [Metadata Metadata 0 64 0xffff_ffff_ffff_ffff true Nothing]
        [Reg0 Reg0 0 32 0xffff_ffff true Nothing]
        [Reg1 Reg1 0 32 0xffff_ffff true Nothing]
        [Reg2 Reg2 0 32 0xffff_ffff true Nothing]
        [Reg3 Reg3 0 32 0xffff_ffff true Nothing]
        [Reg4 Reg4 0 32 0xffff_ffff true Nothing]
        [Reg5 Reg5 0 32 0xffff_ffff true Nothing]
        [Reg6 Reg6 0 32 0xffff_ffff true Nothing]
        [Reg7 Reg7 0 32 0xffff_ffff true Nothing]
        [Reg8 Reg8 0 32 0xffff_ffff true Nothing]
        [Reg9 Reg9 0 32 0xffff_ffff true Nothing]
        [Reg10 Reg10 0 32 0xffff_ffff true Nothing]
        [Reg11 Reg11 0 32 0xffff_ffff true Nothing]
        [Reg12 Reg12 0 32 0xffff_ffff true Nothing]
        [Reg13 Reg13 0 32 0xffff_ffff true Nothing]
        [Reg14 Reg14 0 32 0xffff_ffff true Nothing]
        [Reg15 Reg15 0 32 0xffff_ffff true Nothing]
        [DlSrc DlSrc 0 48 0xffff_ffff_ffff true Nothing]
        [DlDst DlDst 0 48 0xffff_ffff_ffff true Nothing]
        [DlType DlType 0 16 0 false Nothing]
        [VlanTci VlanTci 0 16 0xffff true Nothing]
        [VlanVid VlanTci 0 13 0x1fff true Tag]
        [VlanPcp VlanTci 13 3 0x7 false Tag]
        [NwSrc NwSrc 0 32 0xffff_ffff true Ipv4]
        [NwDst NwDst 0 32 0xffff_ffff true Ipv4]
        [ArpSpa NwSrc 0 32 0xffff_ffff true Arp]
        [ArpTpa NwDst 0 32 0xffff_ffff true Arp]
        [Ipv6Src Ipv6Src 0 128 0xffff_ffff_ffff_ffff_ffff_ffff_ffff_ffff true Ipv6]
        [Ipv6Dst Ipv6Dst 0 128 0xffff_ffff_ffff_ffff_ffff_ffff_ffff_ffff true Ipv6]
        [NwProto NwProto 0 8 0 false Ip]
        [ArpOp NwProto 0 8 0 false Arp]
        [NwTos NwTos 0 8 0xfc false Ip]
        [IpDscp NwTos 2 6 0x3f false Ip]
        [NwEcn NwTos 0 2 0x3 false Ip]
        [NwTtl NwTtl 0 8 0xff false Ip]
        [IpFrag IpFrag 0 2 0 false Ip]
        [ArpSha ArpSha 0 48 0xffff_ffff_ffff true Arp]
        [ArpTha ArpTha 0 48 0xffff_ffff_ffff true Arp]
        [TpSrc TpSrc 0 16 0xffff true TcpOrUdp]
        [TpDst TpDst 0 16 0xffff true TcpOrUdp]
        [TcpSrc TpSrc 0 16 0xffff true Tcp]
        [TcpDst TpDst 0 16 0xffff true Tcp]
        [UdpSrc TpSrc 0 16 0xffff true Udp]
        [UdpDst TpDst 0 16 0xffff true Udp]
        [IcmpType TpSrc 0 16 0 false Icmp]
        [IcmpCode TpDst 0 16 0 false Icmp]
        [Icmpv6Type TpSrc 0 16 0 false Icmp6]
        [Icmpv6Code TpDst 0 16 0 false Icmp6]
        [VlanTpid VlanTpid 0 16 0 true Nothing]
        [VlanTci2 VlanTci2 0 16 0 true Nothing]
        [VlanTpid2 VlanTpid2 0 16 0 true Nothing]
    )
}

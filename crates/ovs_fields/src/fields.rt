ghost use Rattle.std.specs.Prelude.{◌≡◌, ◌^◌, ◌<◌, slice_set};

use crate::FieldId;
use crate::field_list::with_fields;

/// A number for each field, in the least type that holds the field's width.
///
/// The widest come first, so that no padding stands between them: 164 bytes, and twelve more at the end.
#[derive(Clone, Copy)]
pub(crate) struct Fields {
    pub(crate) ipv6_src: u128,
    pub(crate) ipv6_dst: u128,
    pub(crate) metadata: u64,
    pub(crate) dl_src: u64,
    pub(crate) dl_dst: u64,
    pub(crate) arp_sha: u64,
    pub(crate) arp_tha: u64,
    pub(crate) nw_src: u32,
    pub(crate) nw_dst: u32,
    pub(crate) reg0: u32,
    pub(crate) reg1: u32,
    pub(crate) reg2: u32,
    pub(crate) reg3: u32,
    pub(crate) reg4: u32,
    pub(crate) reg5: u32,
    pub(crate) reg6: u32,
    pub(crate) reg7: u32,
    pub(crate) reg8: u32,
    pub(crate) reg9: u32,
    pub(crate) reg10: u32,
    pub(crate) reg11: u32,
    pub(crate) reg12: u32,
    pub(crate) reg13: u32,
    pub(crate) reg14: u32,
    pub(crate) reg15: u32,
    pub(crate) in_port: u16,
    pub(crate) dl_type: u16,
    pub(crate) vlan_tci: u16,
    pub(crate) tp_src: u16,
    pub(crate) tp_dst: u16,
    pub(crate) vlan_tpid: u16,
    pub(crate) vlan_tci2: u16,
    pub(crate) vlan_tpid2: u16,
    pub(crate) nw_proto: u8,
    pub(crate) nw_tos: u8,
    pub(crate) nw_ttl: u8,
    pub(crate) ip_frag: u8,
}

macro_rules! all_zero {
    (() $([$variant:ident $name:ident $($more:tt)*])*) => {
        Fields { $($name: 0,)* }
    };
}

macro_rules! number_of {
    (($fields:ident, $field:ident) $([$variant:ident $name:ident $($more:tt)*])*) => {
        match $field { $(FieldId::$variant => $fields.$name as u128,)* }
    };
}

macro_rules! store {
    (($fields:ident, $field:ident, $value:ident) $([$variant:ident $name:ident $type:ident $($more:tt)*])*) => {
        match $field { $(FieldId::$variant => $fields.$name = $value as $type,)* }
    };
}

macro_rules! all_same {
    (($a:ident, $b:ident) $([$variant:ident $name:ident $($more:tt)*])*) => {
        $(($a.$name == $b.$name) &)* true
    };
}

impl Fields {
    ghost use Rattle.spec_keys.specs.Fields.{place_of, width_of};
    ghost use Rattle.spec_keys.specs.Keys.{none, value_of, same};
    ghost use Rattle.ovs_fields.specs.Lists.{list_of};

    #[tactic(auto, unfolding(spec_keys::specs::Keys::none))]
    pub(crate) fn zero() -> Fields
        ensures { list_of result ≡ none }
    {
        with_fields!(all_zero())
    }

    pub(crate) fn get(&self, field: FieldId) -> u128
        ensures { result ≡ value_of (list_of self.now) field }
    {
        with_fields!(number_of(self, field))
    }

    pub(crate) fn set(&mut self, field: FieldId, value: u128)
        requires { value < 2 ^ width_of field }
        ensures { list_of self.new ≡ slice_set (list_of self.old) (place_of field) value }
    {
        with_fields!(store(self, field, value))
    }

    /// Whether each field has the same number.
    #[tactic(auto, unfolding(spec_keys::specs::Keys::same))]
    pub(crate) fn is_same(&self, other: &Fields) -> bool
        ensures { result ≡ same (list_of self.now) (list_of other.now) }
    {
        with_fields!(all_same(self, other))
    }
}

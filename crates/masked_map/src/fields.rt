ghost use Rattle.std.specs.Prelude.{◌≡◌, false, IfSome, IsNone};
ghost use Rattle.std.specs.List.{fold};
ghost use Rattle.spec_keys.specs.Keys.{are_zero, common_bits, joined, masked, none, same};
ghost use Rattle.ovs_fields.specs.Feeding.{list_writes};
ghost use Rattle.ovs_fields.specs.Packed.{numbers, bits};
ghost use Rattle.masked_map.specs.Compact.{list_of, wide_fields, compacted};

use crate::field_list::{with_compact, with_wide};
use crate::key_words::KeyWords;
use ovs_fields::{FieldId, Key, Mask, join_64};
use std::hash::{Hash, Hasher};

/// The fields but those that are 0 in most keys and masks: metadata and the registers, the addresses of IPv6 and ARP, and the
/// inner tag.
///
/// They stand so that no padding is between them, and in the order of the words that they feed to a hash function, each from
/// its least bits on: such a word is read as it lies.
#[derive(Clone, Copy)]
pub(crate) struct CompactFields {
    pub(crate) dl_src: u64,
    pub(crate) dl_dst: u64,
    pub(crate) ip_frag: u8,
    pub(crate) nw_ttl: u8,
    pub(crate) nw_tos: u8,
    pub(crate) nw_proto: u8,
    pub(crate) vlan_tci: u16,
    pub(crate) vlan_tpid: u16,
    pub(crate) nw_dst: u32,
    pub(crate) nw_src: u32,
    pub(crate) tp_dst: u16,
    pub(crate) tp_src: u16,
    pub(crate) dl_type: u16,
    pub(crate) in_port: u16,
}

macro_rules! zeros {
    (() $([$variant:ident $name:ident $type:ident])*) => {
        CompactFields { $($name: 0,)* }
    };
}

macro_rules! taken {
    (($of:ident) $([$variant:ident $name:ident $type:ident])*) => {
        CompactFields { $($name: $of.get(FieldId::$variant) as $type,)* }
    };
}

macro_rules! all_zero {
    (($of:ident) $($variant:ident)*) => {
        $(($of.get(FieldId::$variant) == 0) &)* true
    };
}

macro_rules! in_common {
    (($fields:ident, $of:ident) $([$variant:ident $name:ident $type:ident])*) => {
        CompactFields { $($name: $of.get(FieldId::$variant) as $type & $fields.$name,)* }
    };
}

macro_rules! of_both {
    (($a:ident, $b:ident) $([$variant:ident $name:ident $type:ident])*) => {
        CompactFields { $($name: $a.$name & $b.$name,)* }
    };
}

macro_rules! of_either {
    (($a:ident, $b:ident) $([$variant:ident $name:ident $type:ident])*) => {
        CompactFields { $($name: $a.$name | $b.$name,)* }
    };
}

macro_rules! all_wanted {
    (($fields:ident, $wanted:ident, $mask:ident) $([$variant:ident $name:ident $type:ident])*) => {
        $(($wanted.$name == ($fields.$name & $mask.$name)) &)* true
    };
}

impl CompactFields {
    /// All 0.
    #[tactic(auto, unfolding(spec_keys::specs::Keys::none))]
    pub(crate) fn zero() -> CompactFields
        ensures { list_of result ≡ none }
    {
        with_compact!(zeros())
    }

    /// The fields of a key, if the wide ones are 0.
    pub(crate) fn of_key(key: &Key) -> Option<CompactFields>
        ensures some { IfSome result (λ f. list_of f ≡ numbers key.now) }
        ensures none { IsNone result → are_zero wide_fields (numbers key.now) ≡ false }
    {
        if wide_of_key_are_zero(key) {
            Some(taken_of_key(key))
        } else {
            None
        }
    }

    /// The bits of a mask, if the wide fields have none.
    pub(crate) fn of_mask(mask: &Mask) -> Option<CompactFields>
        ensures some { IfSome result (λ f. list_of f ≡ bits mask.now) }
        ensures none { IsNone result → are_zero wide_fields (bits mask.now) ≡ false }
    {
        if wide_of_mask_are_zero(mask) {
            Some(taken_of_mask(mask))
        } else {
            None
        }
    }

    /// The bits of a key that are in these of a mask.
    #[inline]
    #[tactic(auto, using(crate::proofs::CompactLaws::and_zero), unfolding(spec_keys::specs::Keys::masked))]
    pub(crate) fn masked(&self, key: &Key) -> CompactFields
        ensures { list_of result ≡ masked (numbers key.now) (list_of self.now) }
    {
        with_compact!(in_common(self, key))
    }

    /// The bits of a mask that are in these of another.
    #[tactic(auto, using(crate::proofs::CompactLaws::and_zero), unfolding(spec_keys::specs::Keys::masked))]
    pub(crate) fn common(&self, mask: &Mask) -> CompactFields
        ensures { list_of result ≡ common_bits (bits mask.now) (list_of self.now) }
    {
        with_compact!(in_common(self, mask))
    }

    /// The bits that are in these and in others.
    #[inline]
    #[tactic(auto, unfolding(spec_keys::specs::Keys::masked))]
    pub(crate) fn and(&self, other: &CompactFields) -> CompactFields
        ensures { list_of result ≡ masked (list_of self.now) (list_of other.now) }
    {
        with_compact!(of_both(self, other))
    }

    /// The bits of these and of others.
    #[inline]
    #[tactic(auto, unfolding(spec_keys::specs::Keys::joined))]
    pub(crate) fn or(&self, other: &CompactFields) -> CompactFields
        ensures { list_of result ≡ joined (list_of self.now) (list_of other.now) }
    {
        with_compact!(of_either(self, other))
    }

    /// Whether the bits of these that are in those of a mask are the wanted ones.
    #[inline]
    #[tactic(auto, unfolding(spec_keys::specs::Keys::masked, spec_keys::specs::Keys::same))]
    pub(crate) fn has_bits(&self, wanted: &CompactFields, mask: &CompactFields) -> bool
        ensures { result
            ≡ same (list_of wanted.now) (masked (list_of self.now) (list_of mask.now)) }
    {
        with_compact!(all_wanted(self, wanted, mask))
    }
}

impl PartialEq for CompactFields {
    ghost use Rattle.spec_keys.specs.Keys.{same};
    ghost use Rattle.ovs_fields.specs.Equality.{same_partial_equivalence};
    ghost use Rattle.masked_map.specs.Compact.{list_of};

    ghost eq = { λ a b. same (list_of a) (list_of b) };

    ghost laws = { same_partial_equivalence list_of };

    #[inline]
    fn eq(&self, other: &CompactFields) -> bool
        ensures { result ≡ same (list_of self.now) (list_of other.now) }
    {
        KeyWords::of(self).are_same(&KeyWords::of(other))
    }
}

impl Eq for CompactFields {
    ghost use Rattle.ovs_fields.specs.Equality.{same_equivalence};
    ghost use Rattle.masked_map.specs.Compact.{list_of};

    ghost laws = { same_equivalence list_of };
}

impl Hash for CompactFields {
    ghost use Rattle.masked_map.specs.Hashing.{compact_writes, compact_writes_alike};

    ghost hash_input = { compact_writes };

    ghost respects_eq = { compact_writes_alike };

    /// The words are those that a whole key with these numbers feeds, in the order in which the fields lie here.
    #[inline]
    fn hash<H: Hasher>(&self, state: &mut H) {
        let words = KeyWords::of(self);
        state.write_u128(join_64(words.dl_src, words.dl_dst));
        state.write_u128(join_64(words.header, words.addresses));
        state.write_u64(words.ports);
    }
}

fn wide_of_key_are_zero(key: &Key) -> bool
    ensures { result ≡ are_zero wide_fields (numbers key.now) }
{
    with_wide!(all_zero(key))
}

fn wide_of_mask_are_zero(mask: &Mask) -> bool
    ensures { result ≡ are_zero wide_fields (bits mask.now) }
{
    with_wide!(all_zero(mask))
}

pub(crate) fn taken_of_key(key: &Key) -> CompactFields
    ensures { list_of result ≡ compacted (numbers key.now) }
{
    with_compact!(taken(key))
}

fn taken_of_mask(mask: &Mask) -> CompactFields
    ensures { list_of result ≡ compacted (bits mask.now) }
{
    with_compact!(taken(mask))
}

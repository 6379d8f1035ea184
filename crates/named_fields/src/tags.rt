ghost use Rattle.std.specs.Prelude.{◌≡◌};
ghost use Rattle.spec_xlate.specs.Tags.{is_tag, is_full, is_same_tag, outer_tag, inner_tag, no_tag, with_tags, type_of_written, popped, pushed, tagged};
ghost use Rattle.ovs_fields.specs.Packed.{numbers};
ghost use Rattle.named_fields.specs.TagViews.{tag_view};

use ovs_fields::{FieldId, Key};

/// The bit of `vlan_tci` that says that there is a tag (ovs-fields(7), "VLAN Fields").
pub const TAG_BIT: u16 = 0x1000;

/// The type of a customer's tag (IEEE 802.1Q, table 9-1).
const CUSTOMER_TAG: u16 = 0x8100;

/// A VLAN tag of a key: its type, and its content with `TAG_BIT`. Both are 0 where there is none.
#[derive(Clone, Copy)]
pub struct VlanTag {
    pub tpid: u16,
    pub tci: u16,
}

impl VlanTag {
    /// No tag.
    pub const NONE: VlanTag = VlanTag { tpid: 0, tci: 0 };

    /// Whether it is one.
    pub fn is_tag(self) -> bool
        ensures { result ≡ is_tag self.tci }
    {
        self.tci & TAG_BIT != 0
    }

    /// Whether another one is the same.
    pub fn is_same(self, other: VlanTag) -> bool
        ensures { result ≡ is_same_tag (tag_view self) (tag_view other) }
    {
        (self.tci == other.tci) & (self.tpid == other.tpid)
    }
}

/// The outer tag of a key, which is that of a key with one.
pub fn outer_tag(key: &Key) -> VlanTag
    ensures { tag_view result ≡ outer_tag (numbers key.now) }
{
    VlanTag {
        tpid: key.get(FieldId::VlanTpid) as u16,
        tci: key.get(FieldId::VlanTci) as u16,
    }
}

/// The inner one of two tags of a key.
pub fn inner_tag(key: &Key) -> VlanTag
    ensures { tag_view result ≡ inner_tag (numbers key.now) }
{
    VlanTag {
        tpid: key.get(FieldId::VlanTpid2) as u16,
        tci: key.get(FieldId::VlanTci2) as u16,
    }
}

// Gives a key these tags.
fn set_tags(key: &mut Key, outer: VlanTag, inner: VlanTag)
    ensures { numbers key.new ≡ with_tags (tag_view outer) (tag_view inner) (numbers key.old) }
{
    key.set(FieldId::VlanTci, u128::from(outer.tci));
    key.set(FieldId::VlanTpid, u128::from(outer.tpid));
    key.set(FieldId::VlanTci2, u128::from(inner.tci));
    key.set(FieldId::VlanTpid2, u128::from(inner.tpid));
}

// The type of an outer tag that is written: a customer's where there was none.
fn type_of_written(tpid: u16) -> u16
    ensures { result ≡ type_of_written tpid }
{
    if tpid == 0 { CUSTOMER_TAG } else { tpid }
}

/// Whether a packet of a key has a VLAN tag.
pub fn is_tagged(key: &Key) -> bool
    ensures { result ≡ is_tag (outer_tag (numbers key.now)).tci }
{
    outer_tag(key).is_tag()
}

/// Whether a key has two tags, and so no room for another.
pub fn is_full(key: &Key) -> bool
    ensures { result ≡ is_full (numbers key.now) }
{
    inner_tag(key).is_tag()
}

/// Takes the outer tag of a key away. The inner one, if there is one, comes in its place.
pub fn pop_tag(key: &mut Key)
    ensures { numbers key.new ≡ popped (numbers key.old) }
{
    let inner = inner_tag(key);
    set_tags(key, inner, VlanTag::NONE);
}

/// Gives a key one more tag outside, of this type, VLAN 0 and priority 0. An inner tag gets lost.
pub fn push_tag(key: &mut Key, tpid: u16)
    ensures { numbers key.new ≡ pushed tpid (numbers key.old) }
{
    let outer = outer_tag(key);
    set_tags(key, VlanTag { tpid, tci: TAG_BIT }, outer);
}

/// Gives the outer tag of a key this content; where there was no tag, it is a customer's. A content without `TAG_BIT` takes
/// the tag away.
pub fn set_tag(key: &mut Key, tci: u16)
    ensures { numbers key.new ≡ tagged tci (numbers key.old) }
{
    if tci & TAG_BIT == 0 {
        pop_tag(key);
        return;
    }
    let tpid = type_of_written(outer_tag(key).tpid);
    let inner = inner_tag(key);
    set_tags(key, VlanTag { tpid, tci }, inner);
}

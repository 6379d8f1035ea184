//! What the Ethernet header (IEEE 802.3) and VLAN tags (IEEE 802.1Q) give to a key.
ghost use Rattle.std.specs.Prelude.{◌≡◌, ◌+◌, ◌*◌, ◌≤◌, length};
ghost use Rattle.spec_frames.specs.Ethernet.{header_size, type_at, type_size, inner_at, tag_size, tag_count, carried};
ghost use Rattle.spec_frames.specs.Key.{with_outer_tag, with_inner_tag, with_tags, with_ethernet};
ghost use Rattle.frame_keys.specs.Folded.{folded};

use crate::field::set_field;
use crate::headers::{INNER_TAG_AT, OUTER_TAG_AT, tci_at, tpid_at};
use net_bytes::be48;
use ovs_fields::{FieldId, Key};

const DESTINATION_AT: usize = 0;

const SOURCE_AT: usize = 6;

/// Gives a key the outer tag of a frame.
#[inline]
fn set_outer_tag(key: &mut Key, frame: &[u8])
    requires { type_at + tag_size ≤ length frame.now }
    ensures { folded key.new ≡ with_outer_tag frame.now (folded key.old) }
{
    set_field(
        key,
        FieldId::VlanTpid,
        u128::from(tpid_at(frame, OUTER_TAG_AT)),
    );
    set_field(
        key,
        FieldId::VlanTci,
        u128::from(tci_at(frame, OUTER_TAG_AT)),
    );
}

/// Gives a key the inner tag of a frame.
#[inline]
fn set_inner_tag(key: &mut Key, frame: &[u8])
    requires { inner_at + tag_size ≤ length frame.now }
    ensures { folded key.new ≡ with_inner_tag frame.now (folded key.old) }
{
    set_field(
        key,
        FieldId::VlanTpid2,
        u128::from(tpid_at(frame, INNER_TAG_AT)),
    );
    set_field(
        key,
        FieldId::VlanTci2,
        u128::from(tci_at(frame, INNER_TAG_AT)),
    );
}

/// Gives a key the tags of a frame that has so many.
#[inline]
fn set_tags(key: &mut Key, frame: &[u8], tags: u8)
    requires few { tags ≤ 2 }
    requires room { type_at + tags * tag_size + type_size ≤ length frame.now }
    ensures { folded key.new ≡ with_tags tags frame.now (folded key.old) }
{
    if tags == 0 {
        return;
    }
    set_outer_tag(key, frame);
    if tags != 1 {
        set_inner_tag(key, frame);
    }
}

/// Gives a key the addresses, the tags and the type of a frame that has a whole header.
#[inline]
pub(crate) fn set_ethernet(key: &mut Key, frame: &[u8], tags: u8, dl_type: u16)
    requires whole { header_size ≤ length frame.now }
    requires few { tags ≤ 2 }
    requires tags { tags ≡ tag_count frame.now }
    requires room { type_at + tags * tag_size + type_size ≤ length frame.now }
    requires payload { dl_type ≡ (carried frame.now).dl_type }
    ensures { folded key.new ≡ with_ethernet frame.now (folded key.old) }
{
    set_field(key, FieldId::DlDst, u128::from(be48(frame, DESTINATION_AT)));
    set_field(key, FieldId::DlSrc, u128::from(be48(frame, SOURCE_AT)));
    set_tags(key, frame, tags);
    set_field(key, FieldId::DlType, u128::from(dl_type));
}

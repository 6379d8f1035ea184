ghost use Rattle.std.specs.Prelude.{◌≡◌};
ghost use Rattle.spec_xlate.specs.Tags.{tags_of};
ghost use Rattle.ovs_fields.specs.Packed.{numbers};
ghost use Rattle.dp_actions.specs.TagLists.{tag_list};

use named_fields::{VlanTag, inner_tag, outer_tag};
use ovs_fields::Key;

/// The tags of a key, the innermost first.
#[derive(Drop)]
pub(crate) enum KeyTags {
    None,
    One([VlanTag; 1]),
    Two([VlanTag; 2]),
}

impl KeyTags {
    ghost use Rattle.dp_actions.specs.TagLists.{tags_in};

    pub(crate) fn of(key: &Key) -> KeyTags
        ensures { tags_in result ≡ tags_of (numbers key.now) }
    {
        let (outer, inner) = (outer_tag(key), inner_tag(key));
        if !outer.is_tag() {
            KeyTags::None
        } else if !inner.is_tag() {
            KeyTags::One([outer])
        } else {
            KeyTags::Two([inner, outer])
        }
    }

    pub(crate) fn as_slice(&self) -> &[VlanTag]
        ensures { tag_list result.now ≡ tags_in self.now }
    {
        match self {
            KeyTags::None => &[],
            KeyTags::One(tags) => tags,
            KeyTags::Two(tags) => tags,
        }
    }
}

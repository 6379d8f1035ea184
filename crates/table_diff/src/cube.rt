ghost use Rattle.spec_keys.specs.Keys.{IsClean};
ghost use Rattle.ovs_fields.specs.Packed.{numbers};

use ovs_fields::{Key, Mask};

/// A cube of packets: all whose keys agree with this one on the mask.
///
/// Bits of the key outside the mask say nothing of the packets; the key is that of one of them.
#[derive(Clone, Copy)]
pub struct Cube {
    pub key: Key,
    pub mask: Mask,
    pub ghost clean: { IsClean (numbers key) },
}

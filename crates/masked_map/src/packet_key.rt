ghost use Rattle.std.specs.Prelude.{◌≡◌};
ghost use Rattle.spec_keys.specs.Keys.{masked, same};
ghost use Rattle.ovs_fields.specs.Packed.{numbers};
ghost use Rattle.masked_map.specs.Compact.{compacted, list_of};
ghost use Rattle.masked_map.specs.Marks.{AreWordsOf, mark_of};

use crate::fields::{CompactFields, taken_of_key};
use crate::key_words::KeyWords;
use crate::map_mask::MapMask;
use ovs_fields::Key;

/// The key of a packet with its compact fields, which are taken once for look-ups under many masks.
#[derive(Clone, Copy)]
pub struct PacketKey<'a> {
    pub key: &'a Key,
    pub(crate) fields: CompactFields,
    /// These in words.
    pub(crate) words: KeyWords,
    pub(crate) ghost taken: { list_of fields ≡ compacted (numbers key.now) },
    pub(crate) ghost worded: { AreWordsOf words (numbers key.now) },
}

impl<'a> PacketKey<'a> {
    /// Takes the compact fields of a key.
    pub fn new(key: &'a Key) -> PacketKey<'a>
        ensures { result.key.now ≡ key.now }
    {
        let fields = taken_of_key(key);
        let words = KeyWords::of(&fields);
        PacketKey { key, fields, words }
    }

    /// The bits of the key that are in these of a mask.
    #[inline]
    pub(crate) fn masked(&self, mask: &CompactFields) -> CompactFields
        ensures { list_of result ≡ masked (numbers self.now.key.now) (list_of mask.now) }
    {
        self.fields.and(mask)
    }

    /// Whether the key under a mask is one with these compact fields.
    #[inline(always)]
    pub(crate) fn is(&self, own: &CompactFields, mask: &MapMask) -> bool
        ensures { result
            ≡ same (masked (numbers self.now.key.now) (list_of mask.now.bits.fields)) (list_of own.now) }
    {
        self.words.and(&mask.words).are_same(&KeyWords::of(own))
    }

    /// The mark of the key under a mask.
    #[inline(always)]
    pub(crate) fn mark(&self, mask: &MapMask) -> u64
        ensures { result
            ≡ mark_of (masked (numbers self.now.key.now) (list_of mask.now.bits.fields)) }
    {
        self.words.and(&mask.words).mark()
    }
}

//! The prefixes of a field that rules state, in a trie of numbers as wide as the field.

ghost use Rattle.std.specs.Prelude.{◌≡◌, ◌+◌, ◌<◌, ◌^◌, [], Some, length, OnOk, OnErr};
ghost use Rattle.spec_keys.specs.Fields.{width_of};
ghost use Rattle.ovs_fields.specs.Packed.{numbers};
ghost use Rattle.address_prefixes.specs.OfField.{IsTrieOf, HasOnceMore, AreAlike, IsThere, StaysKnown};

use crate::field_prefix::FieldPrefix;
use crate::tracker::{Found, PrefixTrie};
use ovs_fields::{FieldId, Key, width};
use std::alloc::{AllocError, Global};

/// Those of no rules. It takes no memory.
#[tactic(auto, using(crate::proofs::Widths::width_within, crate::proofs::Widths::width_some))]
pub(crate) fn no_prefixes(alloc: Global, field: FieldId) -> PrefixTrie
    ensures { IsTrieOf result field [] }
{
    PrefixTrie::new(alloc, width(field))
}

/// Adds the prefix that a rule states, which has this key under a mask with this one. The only error is out of memory, and
/// then the prefixes stay.
pub(crate) fn insert_prefix(
    trie: &mut PrefixTrie,
    prefix: &FieldPrefix,
    key: &Key,
) -> Result<(), AllocError>
    requires width { trie.old.width ≡ width_of prefix.now.field }
    requires few { length trie.old.list + 1 < 2 ^ 32 }
    ensures ok { OnOk result
        (HasOnceMore prefix.now.field prefix.now.length (numbers key.now) trie.old trie.new) }
    ensures err { OnErr result (AreAlike trie.old trie.new) }
{
    if prefix.length == 0 {
        return Ok(());
    }
    trie.insert(key.get(prefix.field), prefix.length)
}

/// Takes the prefix out that such a rule states. It takes no memory.
pub(crate) fn remove_prefix(trie: &mut PrefixTrie, prefix: &FieldPrefix, key: &Key)
    requires width { trie.old.width ≡ width_of prefix.now.field }
    requires there { IsThere prefix.now.field prefix.now.length (numbers key.now) trie.old }
    ensures { HasOnceMore prefix.now.field prefix.now.length (numbers key.now) trie.new trie.old }
{
    if prefix.length > 0 {
        trie.remove(key.get(prefix.field), prefix.length);
    }
}

/// What the prefixes of a field tell of a key, which is looked up where it isn't known yet.
#[inline(always)]
pub(crate) fn found_in(
    trie: &PrefixTrie,
    field: FieldId,
    key: &Key,
    known: &mut Option<Found>,
) -> Found
    requires { trie.now.width ≡ width_of field }
    ensures known { StaysKnown trie.now known.old known.new field key.now }
    ensures result { StaysKnown trie.now known.old (Some result) field key.now }
{
    if let Some(found) = *known {
        return found;
    }
    let found = trie.look(key.get(field));
    *known = Some(found);
    found
}

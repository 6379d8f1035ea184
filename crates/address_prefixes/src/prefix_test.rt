ghost use Rattle.std.specs.Prelude.{◌≡◌, ◌==◌, ◌-◌, ◌<◌, ◌≤◌};
ghost use Rattle.std.specs.Int.{bit_at};
ghost use Rattle.spec_keys.specs.Fields.{width_of};
ghost use Rattle.spec_xlate.specs.Lookup as xlate;
ghost use Rattle.ovs_fields.specs.Packed.{numbers};
ghost use Rattle.address_prefixes.specs.OfField.{StaysKnown, ForMasks};
ghost use Rattle.address_prefixes.specs.Tests.{Consults, EndsUnmatched};

use crate::field_prefix::FieldPrefix;
use crate::field_trie::found_in;
use crate::prefix::leading;
use crate::tracker::{Found, PrefixTrie};
use ovs_fields::{FieldId, Key, Mask, width};

/// Consults the bits of a field that decide whether a mask goes on, where it hasn't ended, and answers whether it does.
/// Where it doesn't, the key matches none of its rules.
///
/// It speaks of the field that the call names, which is the prefix's own, and is a part of its caller: so the field is known
/// as the program is compiled, and its bits are added without a choice among all fields.
#[inline(always)]
#[tactic(auto, using(crate::proofs::Widths::width_within, crate::proofs::Widths::leading_within))]
pub(crate) fn prefix_test(
    field: FieldId,
    alive: bool,
    trie: &PrefixTrie,
    prefix: &FieldPrefix,
    key: &Key,
    known: &mut Option<Found>,
    consulted: &mut Mask,
) -> bool
    requires { trie.now.width ≡ width_of field }
    ensures known { StaysKnown trie.now known.old known.new field key.now }
    ensures consulted { ForMasks trie.now known.old prefix.now field key.now
        (λ rs mask. Consults alive consulted.old (xlate.prefix_test rs (numbers key.now) mask field)
        result consulted.new) }
    ensures unmatched { ForMasks trie.now known.old prefix.now field key.now
        (λ rs mask. EndsUnmatched alive (numbers key.now) rs mask
        → EndsUnmatched result (numbers key.now) rs mask) }
{
    if !alive {
        return false;
    }
    let width = width(field);
    let length = prefix.length.min(width);
    if length == 0 {
        return true;
    }
    let found = found_in(trie, field, key, known);
    if begins_with_some(found, length) {
        consulted.add(field, leading(width, length));
        return true;
    }
    let decided = found.bits.min(length);
    consulted.add(field, leading(width, decided));
    false
}

/// Whether a number begins with one of the prefixes that have a length, by what they tell of it.
fn begins_with_some(found: Found, length: u32) -> bool
    requires some { 0 < length }
    requires wide { length ≤ 128 }
    ensures { result ≡ (bit_at found.lengths (length - 1) == 1) }
{
    found.lengths >> (length - 1) & 1 == 1
}

ghost use Rattle.std.specs.Prelude.{[]};
ghost use Rattle.address_prefixes.specs.Addresses.{AreOf};

use address_prefixes::{AddressLookups, AddressPrefixes, MaskPrefixes};
use ovs_fields::{FieldId, Key, Mask};
use rule_tables::Match;
use std::process::Abort;
use std::test::Fail;

/// The mask of routes of eight bits.
fn routes() -> Mask {
    let mut mask = Mask::none();
    mask.add(FieldId::NwDst, 0xff00_0000);
    mask
}

/// Tests the prefixes of a rule for every packet, added here, by a longer mask and by its own.
fn test_by_two_masks(
    rt: &impl Abort,
    prefixes: &mut AddressPrefixes,
    every: &Match,
) -> Result<(), Fail>
    requires { AreOf prefixes.old [] }
{
    prefixes.insert(every)?;
    let mut known = AddressLookups::none();
    let mut consulted = Mask::none();
    let longer = MaskPrefixes::new(&routes());
    assert!(rt; !prefixes.test(&longer, &Key::zero(), &mut known, &mut consulted));
    assert!(rt; consulted.get(FieldId::NwDst) == 0);
    let own = MaskPrefixes::new(&every.mask);
    assert!(rt; prefixes.test(&own, &Key::zero(), &mut known, &mut consulted));
    prefixes.remove(every);
    Ok(())
}

#[test]
fn a_mask_whose_prefixes_no_rule_states_ends_without_a_bit(rt: HostRuntime) -> Result<(), Fail> {
    let mut prefixes = AddressPrefixes::new(rt.alloc());
    let tested = test_by_two_masks(&rt, &mut prefixes, &Match::any());
    drop(prefixes);
    tested
}

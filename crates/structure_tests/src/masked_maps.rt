use masked_map::{MaskedMap, PacketKey};
use ovs_fields::{FieldId, Key, Mask, masked};
use std::alloc::AllocError;
use std::process::Abort;
use std::test::Fail;

/// A key of these addresses, and with a register.
fn key_of(nw_dst: u32, tp_dst: u16, register: u32) -> Key {
    let mut key = Key::zero();
    key.set(FieldId::NwDst, u128::from(nw_dst));
    key.set(FieldId::TpDst, u128::from(tp_dst));
    key.set(FieldId::Reg3, u128::from(register));
    key
}

fn address_mask() -> Mask {
    let mut mask = Mask::none();
    mask.add(FieldId::NwDst, 0xffff_ff00);
    mask
}

fn register_mask() -> Mask {
    let mut mask = address_mask();
    mask.add(FieldId::Reg3, 0xff);
    mask
}

/// Makes room for a key and puts a value there: what stood there.
fn put(map: &mut MaskedMap<u32>, key: &Key, value: u32) -> Result<Option<u32>, AllocError> {
    map.reserve()?;
    Ok(map.insert(key, value))
}

/// Asserts what stands at a key under the mask.
fn expect_at(rt: &impl Abort, map: &MaskedMap<u32>, key: &Key, value: Option<u32>) {
    assert_eq!(rt; map.get(&PacketKey::new(key)).copied(), value);
}

/// Asserts what stands at a key as it is.
fn expect_exactly_at(rt: &impl Abort, map: &MaskedMap<u32>, key: &Key, value: Option<u32>) {
    assert_eq!(rt; map.get_exact(key).copied(), value);
}

/// One key, and two others of which one has its bits.
fn look_by_bits(rt: &impl Abort, map: &mut MaskedMap<u32>) -> Result<(), AllocError> {
    put(map, &key_of(0x0a00_0001, 80, 7), 1)?;
    expect_at(rt, map, &key_of(0x0a00_0002, 443, 7), Some(1));
    expect_at(rt, map, &key_of(0x0a00_0101, 80, 7), None);
    Ok(())
}

#[test]
fn keys_are_found_by_the_bits_of_a_mask(rt: HostRuntime) -> Result<(), Fail> {
    for mask in [address_mask(), register_mask()] {
        let mut map = MaskedMap::new(rt.alloc(), &mask);
        let done = look_by_bits(&rt, &mut map);
        drop(map);
        done?;
    }
    Ok(())
}

/// One key, and what then stands at one with another register.
fn look_by_register(
    rt: &impl Abort,
    map: &mut MaskedMap<u32>,
    value: Option<u32>,
) -> Result<(), AllocError> {
    put(map, &key_of(0x0a00_0001, 80, 7), 1)?;
    expect_at(rt, map, &key_of(0x0a00_0001, 80, 8), value);
    Ok(())
}

#[test]
fn a_register_counts_where_the_mask_has_it(rt: HostRuntime) -> Result<(), Fail> {
    for (mask, value) in [(address_mask(), Some(1)), (register_mask(), None)] {
        let mut map = MaskedMap::new(rt.alloc(), &mask);
        let done = look_by_register(&rt, &mut map, value);
        drop(map);
        done?;
    }
    Ok(())
}

/// One key with bits outside of the mask, looked for as it is and under the mask.
fn look_exactly(rt: &impl Abort, map: &mut MaskedMap<u32>, mask: &Mask) -> Result<(), AllocError> {
    let key = key_of(0x0a00_0001, 80, 7);
    put(map, &key, 1)?;
    expect_exactly_at(rt, map, &key, None);
    expect_exactly_at(rt, map, &masked(&key, mask), Some(1));
    Ok(())
}

#[test]
fn a_key_with_other_bits_is_not_found_exactly(rt: HostRuntime) -> Result<(), Fail> {
    for mask in [address_mask(), register_mask()] {
        let mut map = MaskedMap::new(rt.alloc(), &mask);
        let done = look_exactly(&rt, &mut map, &mask);
        drop(map);
        done?;
    }
    Ok(())
}

/// Two keys, of which one is put twice and then goes.
fn put_again_and_remove(rt: &impl Abort, map: &mut MaskedMap<u32>) -> Result<(), AllocError> {
    let (one, other) = (key_of(0x0a00_0001, 80, 7), key_of(0x0a00_0101, 80, 7));
    put(map, &one, 1)?;
    let stood = (put(map, &other, 2)?, put(map, &one, 3)?);
    assert_eq!(rt; stood, (None, Some(1)));
    assert_eq!(rt; map.len(), 2);
    let removed = (map.swap_remove(&one), map.swap_remove(&one));
    assert_eq!(rt; removed, (Some(3), None));
    expect_at(rt, map, &other, Some(2));
    Ok(())
}

#[test]
fn a_key_has_its_last_value_until_it_goes(rt: HostRuntime) -> Result<(), Fail> {
    for mask in [address_mask(), register_mask()] {
        let mut map = MaskedMap::new(rt.alloc(), &mask);
        let done = put_again_and_remove(&rt, &mut map);
        drop(map);
        done?;
    }
    Ok(())
}

/// Two keys, and the values at those that agree with another on the bits of two masks.
fn agree_with(
    map: &mut MaskedMap<u32>,
    found: &mut Vec<u32>,
    wanted: &Mask,
) -> Result<(), AllocError> {
    put(map, &key_of(0x0a00_0001, 80, 7), 1)?;
    put(map, &key_of(0x0a01_0001, 80, 7), 2)?;
    map.add_agreeing(found, &key_of(0x0a01_0203, 443, 8), wanted)
}

#[test]
fn values_are_found_by_the_bits_that_two_masks_have(rt: HostRuntime) -> Result<(), Fail> {
    let mut wanted = Mask::none();
    wanted.add(FieldId::NwDst, 0xffff_0000);
    wanted.add(FieldId::TpDst, 0xffff);
    for mask in [address_mask(), register_mask()] {
        let mut map = MaskedMap::new(rt.alloc(), &mask);
        let mut found = Vec::new(rt.alloc());
        let done = agree_with(&mut map, &mut found, &wanted);
        drop(map);
        done?;
        assert_eq!(rt; found.as_slice(), [2].as_slice());
    }
    Ok(())
}

use ovs_fields::{
    FIELD_COUNT, FieldId, Key, Mask, agree, all_fields, and, covers, key_hash, stage, width,
};

#[test]
fn the_zero_key_has_0_in_each_field(rt: HostRuntime) {
    let fields = all_fields();
    assert_eq!(rt; fields.len(), FIELD_COUNT);
    assert!(rt; fields[0] == FieldId::InPort);
    assert!(rt; fields[FIELD_COUNT - 1] == FieldId::VlanTpid2);
    for field in fields {
        assert_eq!(rt; Key::zero().get(*field), 0);
    }
}

#[test]
fn fields_have_widths_and_stages(rt: HostRuntime) {
    assert!(rt; width(FieldId::Ipv6Dst) == 128);
    assert!(rt; width(FieldId::IpFrag) == 2);
    assert!(rt; stage(FieldId::InPort) == 0);
    assert!(rt; stage(FieldId::TpDst) == 3);
    assert!(rt; width(FieldId::VlanTpid2) == 16);
    assert!(rt; stage(FieldId::VlanTci2) == 1);
}

#[test]
fn a_key_keeps_what_is_set(rt: HostRuntime) {
    let mut key = Key::zero();
    key.set(FieldId::DlSrc, 0x0200_0000_0001);
    assert!(rt; key.get(FieldId::DlSrc) == 0x0200_0000_0001);
    assert!(rt; key.get(FieldId::DlDst) == 0);
    assert!(rt; key == key);
    assert!(rt; key != Key::zero());
}

#[test]
fn masks_are_added_and_compared(rt: HostRuntime) {
    let mut slash_16 = Mask::none();
    slash_16.add(FieldId::NwDst, 0xffff_0000);
    let mut slash_24 = slash_16;
    slash_24.add(FieldId::NwDst, 0x0000_ff00);
    assert!(rt; slash_24.get(FieldId::NwDst) == 0xffff_ff00);
    assert!(rt; covers(&slash_24, &slash_16));
    assert!(rt; !covers(&slash_16, &slash_24));
    assert!(rt; and(&slash_16, &slash_24) == slash_16);
}

#[test]
fn keys_agree_under_a_mask(rt: HostRuntime) {
    let mut one = Key::zero();
    one.set(FieldId::NwDst, 0x0a00_0001);
    let mut two = Key::zero();
    two.set(FieldId::NwDst, 0x0a00_0002);
    let mut mask = Mask::none();
    mask.add(FieldId::NwDst, 0xffff_fffc);
    assert!(rt; agree(&one, &two, &mask));
    mask.add(FieldId::NwDst, 0x0000_0002);
    assert!(rt; !agree(&one, &two, &mask));
}

// The expected hashes are those of an independent FNV-1a.

#[test]
fn hash_of_the_zero_key(rt: HostRuntime) {
    assert_eq!(rt; key_hash(&Key::zero()), 0xeb4f_6126_0020_abd5);
}

#[test]
fn hash_of_a_udp_frame(rt: HostRuntime) {
    let mut key = Key::zero();
    key.set(FieldId::InPort, 1);
    key.set(FieldId::DlSrc, 0x0200_0000_0001);
    key.set(FieldId::DlDst, 0x0200_0000_0002);
    key.set(FieldId::DlType, 0x0800);
    key.set(FieldId::NwSrc, 0x0a00_0001);
    key.set(FieldId::NwDst, 0x0a00_0002);
    key.set(FieldId::NwProto, 17);
    key.set(FieldId::NwTtl, 64);
    key.set(FieldId::TpSrc, 1000);
    key.set(FieldId::TpDst, 53);
    assert_eq!(rt; key_hash(&key), 0xe381_0faf_50a6_946f);
}

#[test]
fn hash_of_the_fields_that_a_udp_frame_leaves_zero(rt: HostRuntime) {
    let mut key = Key::zero();
    key.set(FieldId::Metadata, 0x0102_0304_0506_0708);
    key.set(FieldId::Reg0, 1);
    key.set(FieldId::Reg15, 0xffff_fffe);
    key.set(FieldId::VlanTci, 0x1014);
    key.set(FieldId::VlanTpid, 0x88a8);
    key.set(FieldId::VlanTci2, 0x100a);
    key.set(FieldId::VlanTpid2, 0x8100);
    key.set(FieldId::Ipv6Src, 0x2001_0db8_0000_0000_0000_0000_0000_0001);
    key.set(FieldId::Ipv6Dst, 0xff02_0000_0000_0000_0000_0000_0000_0002);
    key.set(FieldId::NwTos, 0xb8);
    key.set(FieldId::IpFrag, 3);
    key.set(FieldId::ArpSha, 0x0200_0000_00a1);
    key.set(FieldId::ArpTha, 0x0200_0000_00b2);
    assert_eq!(rt; key_hash(&key), 0xeef0_9530_e6ad_d5ec);
}

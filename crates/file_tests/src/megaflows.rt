use dump_lines::megaflows::print_megaflow_match;
use ovs_fields::{FieldId, Key, Mask};

#[test]
fn both_tags_of_a_megaflow_are_printed(rt: HostRuntime) {
    let mut key = Key::zero();
    key.set(FieldId::VlanTci, 0x1064);
    key.set(FieldId::VlanTpid, 0x88a8);
    key.set(FieldId::VlanTci2, 0x1005);
    key.set(FieldId::VlanTpid2, 0x8100);
    let mut mask = Mask::none();
    mask.add(FieldId::VlanTci, 0x1fff);
    mask.add(FieldId::VlanTpid, 0xffff);
    mask.add(FieldId::VlanTci2, 0x1000);
    mask.add(FieldId::VlanTpid2, 0xffff);
    let mut out = String::new(rt.alloc());
    print_megaflow_match(&mut out, &key, &mask).expect(&rt, "ample memory");
    assert!(rt;
        out.as_str()
            == "vlan_tci=0x1064/0x1fff,vlan_tpid=0x88a8,vlan_tci2=0x1000/0x1000,vlan_tpid2=0x8100"
    );
}

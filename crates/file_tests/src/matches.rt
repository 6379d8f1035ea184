use field_text::TextFault;
use match_text::{print_match, read_match};
use ovs_fields::FieldId;
use rule_tables::EditWord;

#[test]
fn a_flow_says_its_match_and_where_its_actions_begin(rt: HostRuntime) {
    let line =
        b"table=3, tcp,nw_dst=10.0.0.0/8,tp_dst=80,dl_vlan=5 vlan_pcp=2,ipv6_src=::1,actions=drop # web";
    let text = read_match(rt.alloc(), line, 0, EditWord::Add)
        .ok()
        .expect(&rt, "the match is read");
    assert!(rt; text.table == Some(3));
    assert!(rt; text.priority == 32_768);
    assert!(rt; text.rest == Some(83));
    let mask = text.matching.mask;
    assert!(rt; mask.get(FieldId::NwDst) == 0xff00_0000);
    assert!(rt; text.matching.key.get(FieldId::NwProto) == 6);
    assert!(rt; text.matching.key.get(FieldId::TpDst) == 80);
    assert!(rt; text.matching.key.get(FieldId::VlanTci) == 0x5005);
    assert!(rt; mask.get(FieldId::VlanTci) == 0xffff);
    assert!(rt; mask.get(FieldId::Ipv6Src) == 0);
}

#[test]
fn a_fault_has_a_column(rt: HostRuntime) {
    let repeated = read_match(
        rt.alloc(),
        b"ip,dl_type=0x0800 actions=drop",
        0,
        EditWord::Add,
    );
    assert!(rt; matches!(repeated, Err(TextFault::Repeated { col: 4 })));
    let bad = read_match(rt.alloc(), b"delete in_port=0", 6, EditWord::Delete);
    assert!(rt; matches!(bad, Err(TextFault::BadValue { col: 16 })));
    let missing = read_match(rt.alloc(), b"in_port=1", 0, EditWord::Add);
    assert!(rt; matches!(missing, Err(TextFault::Syntax { col: 10 })));
}

#[test]
fn a_match_is_printed_in_the_order_of_the_fields(rt: HostRuntime) {
    let line =
        b"nw_dst=10.0.0.0/8,tp_dst=80,dl_vlan=5,vlan_pcp=2,in_port=3,tcp,ipv6_src=::1,actions=";
    let text = read_match(rt.alloc(), line, 0, EditWord::Add)
        .ok()
        .expect(&rt, "the match is read");
    let mut out = String::new(rt.alloc());
    print_match(&text.matching, &mut out).expect(&rt, "ample memory");
    assert!(rt; out.as_str() == "in_port=3,tcp,vlan_tci=0x5005,nw_dst=10.0.0.0/8,tp_dst=80");
}

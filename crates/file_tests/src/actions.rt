use action_text::{OfAction, TextFault, print_actions, read_actions};
use spec_actions::{NamedField, Slice};

#[test]
fn actions_of_a_line_and_their_text(rt: HostRuntime) {
    let line = b"actions=load:5->reg0[4..7] output:in_port[],resubmit(,1),goto_table:254 # 9";
    let actions = read_actions(rt.alloc(), line, 8)
        .ok()
        .expect(&rt, "the actions are read");
    let port = Slice {
        name: NamedField::InPort,
        low: 0,
        high: 15,
    };
    let expected = [
        OfAction::Set {
            name: NamedField::Reg0,
            value: 0x50,
            mask: 0xf0,
        },
        OfAction::OutputField(port),
        OfAction::Resubmit(1),
        OfAction::Goto(254),
    ];
    assert!(rt; actions.as_slice() == expected.as_slice());
    let mut text = String::new(rt.alloc());
    print_actions(actions.as_slice(), &mut text).expect(&rt, "ample memory");
    let printed = "set_field:0x50/0xf0->reg0,output:in_port[0..15],resubmit(,1),goto_table:254";
    assert!(rt; text.as_str() == printed);
}

#[test]
fn tags_of_both_types_are_pushed(rt: HostRuntime) {
    let line = b"actions=push_vlan:33024,push_vlan:0x88a8,strip_vlan";
    let actions = read_actions(rt.alloc(), line, 8)
        .ok()
        .expect(&rt, "the actions are read");
    let expected = [
        OfAction::PushVlan(0x8100),
        OfAction::PushVlan(0x88a8),
        OfAction::PopVlan,
    ];
    assert!(rt; actions.as_slice() == expected.as_slice());
    let mut text = String::new(rt.alloc());
    print_actions(actions.as_slice(), &mut text).expect(&rt, "ample memory");
    assert!(rt; text.as_str() == "push_vlan:0x8100,push_vlan:0x88a8,pop_vlan");
}

#[test]
fn a_tag_of_another_type_is_refused(rt: HostRuntime) {
    match read_actions(rt.alloc(), b"actions=push_vlan:0x9100", 8) {
        Err(TextFault::BadValue { col }) => assert!(rt; col == 19),
        _ => assert!(rt; false),
    }
}

#[test]
fn bits_of_a_write_outside_its_mask_are_printed_as_0(rt: HostRuntime) {
    let write = OfAction::Set {
        name: NamedField::Reg0,
        value: 5,
        mask: 3,
    };
    let mut text = String::new(rt.alloc());
    print_actions(&[write], &mut text).expect(&rt, "ample memory");
    assert!(rt; text.as_str() == "set_field:0x1/0x3->reg0");
}

#[test]
fn a_fault_has_its_column_in_the_line(rt: HostRuntime) {
    let line = b"actions=1,set_field:1->foo";
    match read_actions(rt.alloc(), line, 8) {
        Err(TextFault::UnknownName { col }) => assert!(rt; col == 24),
        _ => assert!(rt; false),
    }
}

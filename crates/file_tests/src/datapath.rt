use action_text::{DpAction, print_dp_actions};
use ovs_fields::FieldId;

#[test]
fn datapath_actions_have_their_texts(rt: HostRuntime) {
    let mut text = String::new(rt.alloc());
    print_dp_actions(&[], &mut text).expect(&rt, "ample memory");
    text.push('\n').expect(&rt, "ample memory");
    let tagged = [
        DpAction::PushVlan {
            tpid: 0x8100,
            tci: 0x1005,
        },
        DpAction::PushVlan {
            tpid: 0x88a8,
            tci: 0x1064,
        },
        DpAction::Output(2),
    ];
    print_dp_actions(&tagged, &mut text).expect(&rt, "ample memory");
    text.push('\n').expect(&rt, "ample memory");
    let written = [
        DpAction::Set {
            field: FieldId::DlDst,
            value: 0,
            mask: 5,
        },
        DpAction::PopVlan,
        DpAction::Set {
            field: FieldId::NwSrc,
            value: 8,
            mask: 8,
        },
        DpAction::Set {
            field: FieldId::NwTtl,
            value: 0x3f,
            mask: 0x7f,
        },
        DpAction::Output(2),
        DpAction::Set {
            field: FieldId::NwTtl,
            value: 0xff,
            mask: 0xff,
        },
        DpAction::Output(3),
        DpAction::Set {
            field: FieldId::Reg0,
            value: 5,
            mask: 3,
        },
    ];
    print_dp_actions(&written, &mut text).expect(&rt, "ample memory");
    let expected = "drop\npush_vlan(vid=5,pcp=0),push_vlan(tpid=0x88a8,vid=100,pcp=0),2\n\
        set(dl_dst=00:00:00:00:00:00/00:00:00:00:00:05),pop_vlan,set(nw_src=0.0.0.8/0.0.0.8),\
        set(nw_ttl=0x3f/0x7f),2,set(nw_ttl=255),3,\
        set(reg0=0x1/0x3)";
    assert!(rt; text.as_str() == expected);
}

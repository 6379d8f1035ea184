use crate::traces::running::{Trace, ends_as_shown, words_for};

const TO_AN_EMPTY_TABLE: &str = "actions=resubmit(,9)\n";

// No call has this number, so that none fails.
const NONE: u64 = 0;

#[test]
fn a_lookup_without_a_winner_is_told(rt: HostRuntime) {
    let trace = Trace {
        edits: TO_AN_EMPTY_TABLE,
        words: &words_for("in_port=2"),
        status: 0,
        text: "flow: in_port=2\n0 table=0 rule=1 priority=32768 actions=resubmit(,9)\n1 table=9 no match\nlast: in_port=2\nmegaflow: in_port=2,dl_type=0x0000\ndatapath: drop\n",
    };
    assert!(rt; ends_as_shown(rt.alloc(), &trace, NONE, NONE).expect(&rt, "ample memory"));
}

#[test]
fn a_trace_is_through_the_rules_of_all_bundles(rt: HostRuntime) {
    let trace = Trace {
        edits: "actions=1\nbegin\ndelete\nactions=2\ncommit\n",
        words: &words_for("in_port=1"),
        status: 0,
        text: "flow: in_port=1\n0 table=0 rule=3 priority=32768 actions=output:2\nlast: in_port=1\nmegaflow: in_port=1,dl_type=0x0000\ndatapath: 2\n",
    };
    assert!(rt; ends_as_shown(rt.alloc(), &trace, NONE, NONE).expect(&rt, "ample memory"));
}

#[test]
fn two_tags_are_told_with_their_types(rt: HostRuntime) {
    let trace = Trace {
        edits: "actions=push_vlan:0x8100,push_vlan:0x88a8,2\n",
        words: &words_for("in_port=1"),
        status: 0,
        text: "flow: in_port=1\n0 table=0 rule=1 priority=32768 actions=push_vlan:0x8100,push_vlan:0x88a8,output:2\nlast: in_port=1,vlan_tci=0x1000,vlan_tpid=0x88a8,vlan_tci2=0x1000,vlan_tpid2=0x8100\nmegaflow: in_port=1,dl_type=0x0000,vlan_tci=0x0000,vlan_tpid=0x0000,vlan_tci2=0x0000,vlan_tpid2=0x0000\ndatapath: push_vlan(vid=0,pcp=0),push_vlan(tpid=0x88a8,vid=0,pcp=0),2\n",
    };
    assert!(rt; ends_as_shown(rt.alloc(), &trace, NONE, NONE).expect(&rt, "ample memory"));
}

#[test]
fn the_port_of_the_flow_is_one_of_the_switch(rt: HostRuntime) {
    let trace = Trace {
        edits: TO_AN_EMPTY_TABLE,
        words: &words_for("in_port=3"),
        status: 10,
        text: "no such port: 3\n",
    };
    assert!(rt; ends_as_shown(rt.alloc(), &trace, NONE, NONE).expect(&rt, "ample memory"));
}

#[test]
fn other_words_end_with_the_usage(rt: HostRuntime) {
    let trace = Trace {
        edits: TO_AN_EMPTY_TABLE,
        words: &["edits", "in_port=1"],
        status: 2,
        text: "usage: megatrace EDITS FLOW PORTS\n",
    };
    assert!(rt; ends_as_shown(rt.alloc(), &trace, NONE, NONE).expect(&rt, "ample memory"));
}

#[test]
fn a_wrong_flow_is_told_with_its_place(rt: HostRuntime) {
    let trace = Trace {
        edits: TO_AN_EMPTY_TABLE,
        words: &words_for("in_port=1,foo=1"),
        status: 3,
        text: "flow:1:11: unknown name\n",
    };
    assert!(rt; ends_as_shown(rt.alloc(), &trace, NONE, NONE).expect(&rt, "ample memory"));
}

#[test]
fn an_edit_of_too_many_actions_is_told(rt: HostRuntime) {
    let trace = Trace {
        edits: "actions=1,1,1,1,1,1,1,1,1,1,1,1,1,1,1,1,1,1,1,1,1,1,1,1,1,1,1,1,1,1,1,1,1,1,1,1,1,1,1,1,1,1,1,1,1,1,1,1,1,1,1,1,1,1,1,1,1,1,1,1,1,1,1,1,1\n",
        words: &words_for("in_port=1"),
        status: 7,
        text: "limit: actions 64\n",
    };
    assert!(rt; ends_as_shown(rt.alloc(), &trace, NONE, NONE).expect(&rt, "ample memory"));
}

#[test]
fn a_fault_in_reading_is_told(rt: HostRuntime) {
    let trace = Trace {
        edits: TO_AN_EMPTY_TABLE,
        words: &words_for("in_port=1"),
        status: 5,
        text: "read fault: edits\n",
    };
    assert!(rt; ends_as_shown(rt.alloc(), &trace, 2, NONE).expect(&rt, "ample memory"));
}

#[test]
fn nothing_is_printed_after_a_fault_in_printing(rt: HostRuntime) {
    let trace = Trace {
        edits: TO_AN_EMPTY_TABLE,
        words: &words_for("in_port=1"),
        status: 6,
        text: "",
    };
    assert!(rt; ends_as_shown(rt.alloc(), &trace, NONE, 1).expect(&rt, "ample memory"));
}

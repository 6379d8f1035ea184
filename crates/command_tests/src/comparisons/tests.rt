use crate::comparisons::running::{Comparison, ends_as_shown};

/// The words that name both files, and a switch of two ports.
const WORDS: [&str; 4] = ["old", "new", "1", "2"];

// No call has this number, so that none fails.
const NONE: u64 = 0;

#[test]
fn an_edit_that_moves_no_packet_is_no_difference(rt: HostRuntime) {
    let comparison = Comparison {
        old: "priority=2,in_port=1,actions=2\npriority=1,in_port=2,actions=1\n",
        new: "priority=1,in_port=2,actions=1\npriority=2,in_port=1,actions=2\npriority=1,in_port=1,actions=drop\n",
        words: &WORDS,
        status: 0,
        text: "",
    };
    assert!(rt; ends_as_shown(rt.alloc(), &comparison, NONE, NONE).expect(&rt, "ample memory"));
}

#[test]
fn packets_of_a_changed_rule_are_one_class(rt: HostRuntime) {
    let comparison = Comparison {
        old: "in_port=1,actions=2\n",
        new: "in_port=1,actions=in_port\n",
        words: &WORDS,
        status: 1,
        text: "in_port=1\n- 2\n+ 1\n1 classes, 1 kinds\n",
    };
    assert!(rt; ends_as_shown(rt.alloc(), &comparison, NONE, NONE).expect(&rt, "ample memory"));
}

#[test]
fn a_kind_is_one_line_in_brief(rt: HostRuntime) {
    let comparison = Comparison {
        old: "in_port=1,actions=2\n",
        new: "in_port=1,actions=drop\n",
        words: &["--brief", "old", "new", "1", "2"],
        status: 1,
        text: "1: 2 -> drop\n1 classes, 1 kinds\n",
    };
    assert!(rt; ends_as_shown(rt.alloc(), &comparison, NONE, NONE).expect(&rt, "ample memory"));
}

#[test]
fn a_rule_that_another_hides_moves_nothing(rt: HostRuntime) {
    let comparison = Comparison {
        old: "priority=9,actions=resubmit(,1)\ntable=1,priority=5,ip,actions=2\ntable=1,priority=4,ip,nw_dst=10.0.0.1,actions=1\n",
        new: "priority=9,actions=resubmit(,1)\ntable=1,priority=5,ip,actions=2\ntable=1,priority=4,ip,nw_dst=10.0.0.1,actions=drop\n",
        words: &WORDS,
        status: 0,
        text: "",
    };
    assert!(rt; ends_as_shown(rt.alloc(), &comparison, NONE, NONE).expect(&rt, "ample memory"));
}

#[test]
fn rules_of_one_priority_that_overlap_keep_their_order(rt: HostRuntime) {
    let comparison = Comparison {
        old: "in_port=1,actions=2\nvlan_tci=0,actions=in_port\n",
        new: "vlan_tci=0,actions=in_port\nin_port=1,actions=2\n",
        words: &WORDS,
        status: 1,
        text: "in_port=1,vlan_tci=0x0000\n- 2\n+ 1\n1 classes, 1 kinds\n",
    };
    assert!(rt; ends_as_shown(rt.alloc(), &comparison, NONE, NONE).expect(&rt, "ample memory"));
}

#[test]
fn the_last_version_of_a_file_counts(rt: HostRuntime) {
    let comparison = Comparison {
        old: "actions=1\nbegin\ndelete\nactions=2\ncommit\n",
        new: "actions=2\n",
        words: &WORDS,
        status: 0,
        text: "",
    };
    assert!(rt; ends_as_shown(rt.alloc(), &comparison, NONE, NONE).expect(&rt, "ample memory"));
}

#[test]
fn other_words_end_with_the_usage(rt: HostRuntime) {
    let comparison = Comparison {
        old: "",
        new: "",
        words: &["old", "new"],
        status: 2,
        text: "usage: megadiff [--brief] OLD NEW PORT...\n",
    };
    assert!(rt; ends_as_shown(rt.alloc(), &comparison, NONE, NONE).expect(&rt, "ample memory"));
}

#[test]
fn a_port_stands_once(rt: HostRuntime) {
    let comparison = Comparison {
        old: "",
        new: "",
        words: &["old", "new", "1", "1"],
        status: 2,
        text: "usage: megadiff [--brief] OLD NEW PORT...\n",
    };
    assert!(rt; ends_as_shown(rt.alloc(), &comparison, NONE, NONE).expect(&rt, "ample memory"));
}

#[test]
fn a_wrong_file_is_told_with_its_place(rt: HostRuntime) {
    let comparison = Comparison {
        old: "actions=1\n",
        new: "actions=1\nfoo=1,actions=1\n",
        words: &WORDS,
        status: 3,
        text: "new:2:1: unknown name\n",
    };
    assert!(rt; ends_as_shown(rt.alloc(), &comparison, NONE, NONE).expect(&rt, "ample memory"));
}

#[test]
fn a_fault_in_reading_is_told(rt: HostRuntime) {
    let comparison = Comparison {
        old: "actions=1\n",
        new: "actions=2\n",
        words: &WORDS,
        status: 5,
        text: "read fault: old\n",
    };
    assert!(rt; ends_as_shown(rt.alloc(), &comparison, 2, NONE).expect(&rt, "ample memory"));
}

#[test]
fn nothing_is_printed_after_a_fault_in_printing(rt: HostRuntime) {
    let comparison = Comparison {
        old: "actions=1\n",
        new: "actions=2\n",
        words: &WORDS,
        status: 6,
        text: "",
    };
    assert!(rt; ends_as_shown(rt.alloc(), &comparison, NONE, 1).expect(&rt, "ample memory"));
}

#[test]
fn a_changed_route_that_rewrites_is_one_class_of_flow_actions(rt: HostRuntime) {
    let comparison = Comparison {
        old: "in_port=1,actions=mod_dl_dst:02:00:00:00:00:02,output:2\n",
        new: "in_port=1,actions=mod_dl_dst:02:00:00:00:00:03,in_port\n",
        words: &WORDS,
        status: 1,
        text: "in_port=1\n- set_field:02:00:00:00:00:02->dl_dst,output:2\n+ set_field:02:00:00:00:00:03->dl_dst,in_port\n1 classes, 1 kinds\n",
    };
    assert!(rt; ends_as_shown(rt.alloc(), &comparison, NONE, NONE).expect(&rt, "ample memory"));
}

#[test]
fn actions_of_a_further_table_stand_in_place_of_the_lookup(rt: HostRuntime) {
    let comparison = Comparison {
        old: "in_port=1,actions=load:7->NXM_NX_REG0[],resubmit(,1)\ntable=1,reg0=7,actions=mod_dl_dst:02:00:00:00:00:02,output:2\n",
        new: "in_port=1,actions=drop\n",
        words: &WORDS,
        status: 1,
        text: "in_port=1\n- set_field:0x7->reg0,set_field:02:00:00:00:00:02->dl_dst,output:2\n+ drop\n1 classes, 1 kinds\n",
    };
    assert!(rt; ends_as_shown(rt.alloc(), &comparison, NONE, NONE).expect(&rt, "ample memory"));
}

#[test]
fn a_route_that_is_followed_by_another_table_is_no_difference(rt: HostRuntime) {
    let comparison = Comparison {
        old: "in_port=1,actions=mod_dl_dst:02:00:00:00:00:02,output:2\n",
        new: "in_port=1,actions=resubmit(,1)\ntable=1,actions=mod_dl_dst:02:00:00:00:00:02,output:2\n",
        words: &WORDS,
        status: 0,
        text: "",
    };
    assert!(rt; ends_as_shown(rt.alloc(), &comparison, NONE, NONE).expect(&rt, "ample memory"));
}

#[test]
fn a_ttl_that_has_run_out_is_in_no_class(rt: HostRuntime) {
    let comparison = Comparison {
        old: "in_port=1,ip,nw_ttl=1,actions=dec_ttl,output:2\nin_port=1,ip,nw_ttl=9,actions=dec_ttl,output:2\n",
        new: "in_port=1,ip,nw_ttl=1,actions=dec_ttl,in_port\nin_port=1,ip,nw_ttl=9,actions=dec_ttl,in_port\n",
        words: &WORDS,
        status: 1,
        text: "in_port=1,dl_type=0x0800,nw_ttl=9\n- set(nw_ttl=0x0/0x1),2\n+ set(nw_ttl=0x0/0x1),1\n1 classes, 1 kinds\n",
    };
    assert!(rt; ends_as_shown(rt.alloc(), &comparison, NONE, NONE).expect(&rt, "ample memory"));
}

#[test]
fn what_another_rule_takes_out_is_a_line_that_tells_no_difference(rt: HostRuntime) {
    let comparison = Comparison {
        old: "priority=2,in_port=1,ip,nw_dst=10.1.0.0/16,actions=in_port\npriority=1,in_port=1,ip,nw_dst=10.0.0.0/8,actions=2\n",
        new: "priority=2,in_port=1,ip,nw_dst=10.1.0.0/16,actions=in_port\npriority=1,in_port=1,ip,nw_dst=10.0.0.0/8,actions=drop\n",
        words: &WORDS,
        status: 1,
        text: "in_port=1,dl_type=0x0800,nw_dst=10.1.0.0/16\n=\nin_port=1,dl_type=0x0800,nw_dst=10.0.0.0/8\n- 2\n+ drop\n1 classes, 1 kinds\n",
    };
    assert!(rt; ends_as_shown(rt.alloc(), &comparison, NONE, NONE).expect(&rt, "ample memory"));
}

use port_caches::stats::{Counts, Totals};

#[test]
fn a_rule_visited_twice_is_credited_twice(rt: HostRuntime) {
    let mut totals = Totals::new(rt.alloc(), 3).expect(&rt, "ample memory");
    assert!(rt; totals.rules() == 3);
    totals.credit(&[1, 3, 1], 2, 120);
    let twice = Counts {
        packets: 4,
        bytes: 240,
    };
    assert!(rt; totals.of(1) == twice);
    let none = Counts {
        packets: 0,
        bytes: 0,
    };
    assert!(rt; totals.of(2) == none);
    let once = Counts {
        packets: 2,
        bytes: 120,
    };
    assert!(rt; totals.of(3) == once);
}

use board_steps::{EntryNumbers, Settled, Step, push_step};
use spec_board::{Looked, PutDone};

const EVERY_KIND: &str = "open 0
look 1 miss
look 2 exact 7
look 30 mega 12
settle 1 2 installed 13
settle 4 5 installed 14 drop 1 2 12
settle 6 7 present 8
settle 9 10 full
begin 4294967295
put 15 16 kept
put 15 16 replaced
put 15 16 removed
put 15 16 idle
end
";

#[test]
fn each_kind_of_step_has_its_line(rt: HostRuntime) {
    let alloc = rt.alloc();
    let none = EntryNumbers::new(alloc, Vec::new(alloc)).expect(&rt, "ample memory");
    let three = EntryNumbers::new(
        alloc,
        vec![in alloc; 1, 2, 12].expect(&rt, "ample memory"),
    ).expect(&rt, "ample memory");
    let look = |place, looked| Step::Look {
        place,
        result: looked,
    };
    let settle = |place, version, settled| Step::Settle {
        place,
        version,
        result: settled,
    };
    let put = |done| Step::Put {
        entry: 15,
        version: 16,
        result: done,
    };
    let steps = [
        Step::Open { block: 0 },
        look(1, Looked::Miss),
        look(2, Looked::Exact(7)),
        look(30, Looked::Mega(12)),
        settle(
            1,
            2,
            Settled::Installed {
                no: 13,
                dropped: none,
            },
        ),
        settle(
            4,
            5,
            Settled::Installed {
                no: 14,
                dropped: three,
            },
        ),
        settle(6, 7, Settled::Present(8)),
        settle(9, 10, Settled::Full),
        Step::Begin { version: u32::MAX },
        put(PutDone::Kept),
        put(PutDone::Replaced),
        put(PutDone::Removed),
        put(PutDone::Idle),
        Step::End,
    ];
    let mut text = String::new(alloc);
    for step in &steps {
        push_step(&mut text, step).expect(&rt, "ample memory");
        text.push('\n').expect(&rt, "ample memory");
    }
    assert!(rt; text.as_str() == EVERY_KIND);
}

use trace_gen::generate;

const FIRST_LINE: &[u8] =
    b"table=0,priority=100,ip,nw_dst=10.2.15.0/24,actions=load:1->reg0[],resubmit(,1)\n";

// The header of a capture file in microseconds, that of a record of 42 bytes at second 1 and one millisecond, and these.
const SECOND_TRACE: [u8; 82] = [
    0xd4, 0xc3, 0xb2, 0xa1, 2, 0, 4, 0, 0, 0, 0, 0, 0, 0, 0, 0, 0, 0, 4, 0, 1, 0, 0, 0, 1, 0, 0, 0,
    0xe8, 3, 0, 0, 42, 0, 0, 0, 42, 0, 0, 0, 0x02, 0x00, 0x00, 0x00, 0x00, 0x02, 0x02, 0x00, 0x00,
    0x00, 0x00, 0x01, 0x08, 0x00, 0x45, 0x00, 0x00, 0x1c, 0x00, 0x00, 0x00, 0x00, 0x40, 0x11, 0x5b,
    0xb4, 0x0a, 0x00, 0x00, 0x20, 0x0a, 0x02, 0x0a, 0xfc, 0x06, 0x7d, 0x00, 0x35, 0x00, 0x08, 0x00,
    0x00,
];

#[test]
fn seven_makes_its_first_line_and_the_first_record_of_port_2(rt: HostRuntime) {
    let made = generate(rt.alloc(), 7).expect(&rt, "ample memory");
    assert!(rt; made.edits.starts_with(FIRST_LINE));
    assert!(rt; made.traces.len() == 4);
    let second = &made.traces[1];
    assert!(rt; second.port == 2);
    assert!(rt; second.bytes.starts_with(&SECOND_TRACE));
}

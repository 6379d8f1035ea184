ghost use Rattle.std.specs.Prelude.{◌≤◌, length};
ghost use Rattle.spec_input.specs.Mirrors.{most_mirrors_bytes};

use field_text::TextFault;
use port_scripts::{FileFault, MOST_MIRRORS, MOST_MIRRORS_BYTES, read_mirrors};
use std::alloc::Global;

const PORTS: [u16; 3] = [1, 2, 70];

// A line that copies nothing.
const EMPTY_MIRROR: &[u8] = b",\n";

#[test]
fn mirrors_have_their_ports(rt: HostRuntime) {
    let bytes = b"# sources\nselect_src_port=70,select_src_port=1\n\nselect_dst_port=2 select_all";
    let mirrors = read_mirrors(rt.alloc(), bytes, &PORTS)
        .ok()
        .expect(&rt, "the mirrors are read");
    assert!(rt; mirrors.len() == 2);
    assert!(rt; mirrors[0].src.as_slice() == [70, 1].as_slice());
    assert!(rt; mirrors[0].dst.is_empty());
    assert!(rt; !mirrors[0].all);
    assert!(rt; mirrors[1].src.is_empty());
    assert!(rt; mirrors[1].dst.as_slice() == [2].as_slice());
    assert!(rt; mirrors[1].all);
}

fn fault_of(alloc: Global, bytes: &[u8]) -> Option<FileFault>
    requires { length bytes.now ≤ most_mirrors_bytes }
{
    read_mirrors(alloc, bytes, &PORTS).err()
}

#[test]
fn a_fault_has_its_line_and_column(rt: HostRuntime) {
    let rows = [
        ("select_vlan=1", 1, TextFault::UnknownName { col: 1 }),
        (
            "select_all,select_src_port",
            1,
            TextFault::Syntax { col: 12 },
        ),
        ("select_all=1", 1, TextFault::Syntax { col: 1 }),
        ("what,é", 1, TextFault::Syntax { col: 6 }),
        ("#\nselect_src_port=9", 2, TextFault::BadValue { col: 17 }),
        ("select_all select_all", 1, TextFault::Repeated { col: 12 }),
        (
            "select_dst_port=1,select_dst_port=1",
            1,
            TextFault::Repeated { col: 19 },
        ),
    ];
    for (text, line, why) in rows {
        assert!(rt; text.len() <= MOST_MIRRORS_BYTES);
        let fault = Some(FileFault::Line { line, why });
        assert!(rt; fault_of(rt.alloc(), text.as_bytes()) == fault, "{}", text);
    }
}

#[test]
fn a_line_has_at_most_4096_bytes(rt: HostRuntime) {
    let spaces = [b' '; 4097];
    assert!(rt; fault_of(rt.alloc(), &spaces[..4096]) == None);
    assert!(rt; fault_of(rt.alloc(), &spaces) == Some(FileFault::LineTooLong));
}

#[test]
fn a_file_has_at_most_16_mirrors(rt: HostRuntime) {
    let mut bytes = Vec::new(rt.alloc());
    for _ in 0..MOST_MIRRORS {
        bytes
            .extend_from_slice(EMPTY_MIRROR)
            .expect(&rt, "ample memory");
    }
    assert!(rt; bytes.len() <= MOST_MIRRORS_BYTES);
    assert!(rt; fault_of(rt.alloc(), &bytes) == None);
    bytes
        .extend_from_slice(EMPTY_MIRROR)
        .expect(&rt, "ample memory");
    assert!(rt; bytes.len() <= MOST_MIRRORS_BYTES);
    assert!(rt; fault_of(rt.alloc(), &bytes) == Some(FileFault::TooManyMirrors));
}

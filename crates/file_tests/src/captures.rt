use edge_io::memory::MemoryShelf;
use pcap_files::reader::{PcapFault, Trace, read_trace};
use pcap_files::writer::PcapWriter;
use std::alloc::{AllocError, Global};

const HEADER: [u8; 24] = [
    0xd4, 0xc3, 0xb2, 0xa1, 2, 0, 4, 0, 0, 0, 0, 0, 0, 0, 0, 0, 0, 0, 4, 0, 1, 0, 0, 0,
];

// At one second, 60 bytes.
const RECORD_HEADER: [u8; 16] = [1, 0, 0, 0, 0, 0, 0, 0, 60, 0, 0, 0, 60, 0, 0, 0];

// 60 bytes from 00:00:00:00:00:01 to 00:00:00:00:00:02, of the type 0x88b5.
fn frame() -> [u8; 60] {
    let mut bytes = [0; 60];
    bytes[..14].copy_from_slice(&[0, 0, 0, 0, 0, 2, 0, 0, 0, 0, 0, 1, 0x88, 0xb5]);
    bytes
}

// A file that tcpdump(8) 4.99 reads as this frame, and writes again with the same bytes.
fn file(alloc: Global) -> Result<Vec<u8>, AllocError> {
    let mut bytes = HEADER.to_vec(alloc)?;
    bytes.extend_from_slice(&RECORD_HEADER)?;
    bytes.extend_from_slice(&frame())?;
    Ok(bytes)
}

#[test]
fn one_frame_is_read(rt: HostRuntime) {
    let alloc = rt.alloc();
    let trace = read_trace(alloc, file(alloc).expect(&rt, "ample memory"), 1).expect(
        &rt,
        "ample memory",
    );
    assert!(rt; trace.len() == 1);
    assert!(rt; !trace.is_empty());
    assert!(rt; !trace.nanos());
    assert!(rt; trace.time(1) == 1_000_000_000);
    assert!(rt; trace.frame(1) == frame().as_slice());
}

#[test]
fn empty_trace_has_no_frames(rt: HostRuntime) {
    let alloc = rt.alloc();
    let trace = Trace::empty(alloc);
    assert!(rt; trace.len() == 0);
    assert!(rt; trace.is_empty());
    assert!(rt; !trace.nanos());
    let trace = read_trace(alloc, HEADER.to_vec(alloc).expect(&rt, "ample memory"), 0).expect(
        &rt,
        "ample memory",
    );
    assert!(rt; trace.is_empty());
}

// What is answered to the file in which these bytes stand at an offset.
fn fault_with(
    alloc: Global,
    offset: usize,
    piece: [u8; 4],
) -> Result<Option<PcapFault>, AllocError> {
    let good = file(alloc)?;
    let mut bytes = Vec::new(alloc);
    for (at, byte) in good.iter().enumerate() {
        let given = at.checked_sub(offset).and_then(|place| piece.get(place));
        bytes.push(*given.unwrap_or(byte))?;
    }
    Ok(read_trace(alloc, bytes, 1).err())
}

// What is answered to the file's first bytes.
fn fault_of_prefix(alloc: Global, len: usize) -> Result<Option<PcapFault>, AllocError> {
    let mut bytes = file(alloc)?;
    bytes.truncate(len);
    Ok(read_trace(alloc, bytes, 1).err())
}

#[test]
fn each_fault_of_a_file_is_told(rt: HostRuntime) {
    let alloc = rt.alloc();
    let version = |major, minor| Some(PcapFault::Version { major, minor });
    let fraction = Some(PcapFault::Fraction { at: 24 });
    let long = Some(PcapFault::TooLong { at: 24, n: 262_145 });
    for (offset, bytes, fault) in [
        // A section header block of pcapng, the format of Kuznetzov's patched libpcap, and one bit that is wrong.
        (0, [0x0a, 0x0d, 0x0d, 0x0a], Some(PcapFault::Magic)),
        (0, [0x34, 0xcd, 0xb2, 0xa1], Some(PcapFault::Magic)),
        (0, [0xd4, 0xc3, 0xb2, 0xa0], Some(PcapFault::Magic)),
        (4, [3, 0, 4, 0], version(3, 4)),
        (4, [2, 0, 4, 1], version(2, 0x0104)),
        // LINKTYPE_RAW; and a frame check sequence of four bytes, which is no part of the type.
        (20, [101, 0, 0, 0], Some(PcapFault::LinkType(101))),
        (20, [1, 0, 0, 0x24], None),
        // Records of a second, of a microsecond less, and of a byte more than there may be.
        (28, [0x40, 0x42, 0x0f, 0], fraction),
        (28, [0x3f, 0x42, 0x0f, 0], None),
        (32, [1, 0, 4, 0], long),
    ] {
        assert!(rt; fault_with(alloc, offset, bytes).expect(&rt, "ample memory") == fault);
    }
}

#[test]
fn cut_file_and_one_without_room_are_refused(rt: HostRuntime) {
    let alloc = rt.alloc();
    let short = Some(PcapFault::ShortRecord { at: 24 });
    for (len, fault) in [
        (23, Some(PcapFault::ShortHeader)),
        (24, None),
        (25, short),
        (39, short),
        (40, short),
        (99, short),
    ] {
        assert!(rt; fault_of_prefix(alloc, len).expect(&rt, "ample memory") == fault);
    }
    let refused = read_trace(alloc, file(alloc).expect(&rt, "ample memory"), 0).err();
    assert!(rt; refused == Some(PcapFault::TooManyFrames));
}

// The same frame at one second and five nanoseconds, as `editcap -F nsecpcap` writes it on a big-endian machine.
#[test]
fn big_endian_nanoseconds_are_read(rt: HostRuntime) {
    let alloc = rt.alloc();
    let mut bytes = vec![in alloc;
        0xa1, 0xb2, 0x3c, 0x4d, 0, 2, 0, 4, 0, 0, 0, 0, 0, 0, 0, 0, 0, 4, 0, 0, 0, 0, 0, 1,
    ]
    .expect(&rt, "ample memory");
    bytes
        .extend_from_slice(&[0, 0, 0, 1, 0, 0, 0, 5, 0, 0, 0, 60, 0, 0, 0, 60])
        .expect(&rt, "ample memory");
    bytes
        .extend_from_slice(&frame())
        .expect(&rt, "ample memory");
    let trace = read_trace(alloc, bytes, 1).expect(&rt, "ample memory");
    assert!(rt; trace.len() == 1);
    assert!(rt; trace.nanos());
    assert!(rt; trace.time(1) == 1_000_000_005);
    assert!(rt; trace.frame(1) == frame().as_slice());
}

#[test]
fn one_frame_is_read_and_written_back(rt: HostRuntime) {
    let alloc = rt.alloc();
    let trace = read_trace(alloc, file(alloc).expect(&rt, "ample memory"), 1).expect(
        &rt,
        "ample memory",
    );
    assert!(rt; trace.len() == 1);
    let mut shelf = MemoryShelf::new(alloc, Vec::new(alloc), Vec::new(alloc));
    let mut writer = PcapWriter::start(&mut shelf, "out", false).expect(&rt, "ample memory");
    writer
        .frame(&mut shelf, trace.time(1), trace.frame(1))
        .expect(&rt, "ample memory");
    writer.end(&mut shelf).expect(&rt, "ample memory");
    let made = shelf.made();
    assert!(rt; made.len() == 1);
    assert!(rt; made[0].0.as_str() == "out");
    assert!(rt; made[0].1.as_slice() == file(alloc).expect(&rt, "ample memory").as_slice());
}

// Two records of the frame.
fn two_records(alloc: Global) -> Result<Vec<u8>, AllocError> {
    let mut bytes = RECORD_HEADER.to_vec(alloc)?;
    bytes.extend_from_slice(&frame())?;
    bytes.extend_from_slice(&RECORD_HEADER)?;
    bytes.extend_from_slice(&frame())?;
    Ok(bytes)
}

// A frame that had a byte more on the wire is written with another header, and so is each in another unit.
#[test]
fn consecutive_records_are_lent_as_they_are_written(rt: HostRuntime) {
    let alloc = rt.alloc();
    let mut bytes = HEADER.to_vec(alloc).expect(&rt, "ample memory");
    bytes
        .extend_from_slice(two_records(alloc).expect(&rt, "ample memory").as_slice())
        .expect(&rt, "ample memory");
    bytes
        .extend_from_slice(&[1, 0, 0, 0, 0, 0, 0, 0, 60, 0, 0, 0, 61, 0, 0, 0])
        .expect(&rt, "ample memory");
    bytes
        .extend_from_slice(&frame())
        .expect(&rt, "ample memory");
    let trace = read_trace(alloc, bytes, 3).expect(&rt, "ample memory");
    assert!(rt; trace.len() == 3);
    let (count, records) = trace.records(1, 3, false);
    assert!(rt; count == 2);
    assert!(rt; records == two_records(alloc).expect(&rt, "ample memory").as_slice());
    assert!(rt; trace.records(2, 2, false).0 == 1);
    assert!(rt; trace.records(3, 1, false).0 == 0);
    assert!(rt; trace.records(1, 3, true).0 == 0);
}

#[test]
fn file_in_nanoseconds_has_its_magic_and_unit(rt: HostRuntime) {
    let alloc = rt.alloc();
    let mut shelf = MemoryShelf::new(alloc, Vec::new(alloc), Vec::new(alloc));
    let mut writer = PcapWriter::start(&mut shelf, "out", true).expect(&rt, "ample memory");
    writer
        .frame(&mut shelf, 1_000_000_005, &[7, 8])
        .expect(&rt, "ample memory");
    writer.end(&mut shelf).expect(&rt, "ample memory");
    let mut bytes = HEADER.to_vec(alloc).expect(&rt, "ample memory");
    bytes[..4].copy_from_slice(&[0x4d, 0x3c, 0xb2, 0xa1]);
    bytes
        .extend_from_slice(&[1, 0, 0, 0, 5, 0, 0, 0, 2, 0, 0, 0, 2, 0, 0, 0, 7, 8])
        .expect(&rt, "ample memory");
    let made = shelf.made();
    assert!(rt; made.len() == 1);
    assert!(rt; made[0].1.as_slice() == bytes.as_slice());
}

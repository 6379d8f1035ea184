ghost use Rattle.std.specs.Prelude.{◌≡◌, OnOk};
ghost use Rattle.edge_io.specs.declared.outside.InUse.TheVariants.{Nothing};

use edge_io::memory::{FixedSink, MemoryShelf, MemorySink, SteadyShelf, SteadySink};
use edge_io::{Failed, ReadFault, Shelf, read_all, say_all, write_all};
use std::alloc::{AllocError, Global};

// Writes one file and closes it.
fn store<S: Shelf>(shelf: &mut S, name: &str, bytes: &[u8]) -> Result<(), Failed>
    requires { S.in_use shelf.old ≡ Nothing }
    ensures { OnOk result (S.in_use shelf.new ≡ Nothing) }
{
    shelf.create_file(name)?;
    write_all(shelf, bytes)?;
    shelf.close_file()
}

// A folder with the file "old", whose text is "hello".
fn one_file(alloc: Global) -> Result<Vec<(String, Vec<u8>)>, AllocError> {
    let mut files = Vec::new(alloc);
    files.push((String::from_str(alloc, "old")?, b"hello".to_vec(alloc)?))?;
    Ok(files)
}

#[test]
fn memory_shelf_reads_and_keeps_files(rt: HostRuntime) {
    let alloc = rt.alloc();
    let mut shelf = MemoryShelf::new(
        alloc,
        one_file(alloc).expect(&rt, "no fault"),
        Vec::new(alloc),
    );
    let bytes = read_all(alloc, &mut shelf, "old", 5).expect(&rt, "no fault");
    store(&mut shelf, "new", &bytes).expect(&rt, "no fault");
    assert!(rt; shelf.made().len() == 1);
    shelf.create_file("next").expect(&rt, "no fault");
    assert!(rt; shelf.current().is_some());
}

#[test]
fn steady_shelf_reads_and_keeps_files(rt: HostRuntime) {
    let alloc = rt.alloc();
    let mut shelf = SteadyShelf::new(alloc, one_file(alloc).expect(&rt, "no fault"));
    assert!(rt;
        read_all(alloc, &mut shelf, "new", 0)
            .expect(&rt, "no fault")
            .is_empty()
    );
    let bytes = read_all(alloc, &mut shelf, "old", 5).expect(&rt, "no fault");
    store(&mut shelf, "new", &bytes).expect(&rt, "no fault");
    assert!(rt; shelf.made().len() == 1);
}

#[test]
fn longer_file_is_refused(rt: HostRuntime) {
    let alloc = rt.alloc();
    let mut shelf = SteadyShelf::new(alloc, one_file(alloc).expect(&rt, "no fault"));
    let answer = read_all(alloc, &mut shelf, "old", 4);
    assert!(rt; answer.err() == Some(ReadFault::Over));
}

#[test]
fn sinks_keep_what_was_said(rt: HostRuntime) {
    let alloc = rt.alloc();
    let mut memory = MemorySink::new(alloc, Vec::new(alloc));
    say_all(&mut memory, b"one").expect(&rt, "no fault");
    assert!(rt; memory.text() == b"one".as_slice());
    let mut steady = SteadySink::new(alloc);
    say_all(&mut steady, b"two").expect(&rt, "no fault");
    assert!(rt; steady.text() == b"two".as_slice());
}

#[test]
fn fixed_sink_takes_what_it_has_room_for(rt: HostRuntime) {
    let mut fixed = FixedSink::new(rt.alloc(), 6).expect(&rt, "no fault");
    say_all(&mut fixed, b"three").expect(&rt, "no fault");
    assert!(rt; say_all(&mut fixed, b"two").err() == Some(Failed::Fault));
    say_all(&mut fixed, b"!").expect(&rt, "no fault");
    assert!(rt; fixed.text() == b"three!".as_slice());
}

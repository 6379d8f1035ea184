//! The system's files and standard output.
ghost use Rattle.std.specs.Prelude.{◌≡◌, OnOk};
ghost use Rattle.edge_io.specs.declared.outside.InUse.TheVariants.{Nothing};

use edge_io::real::{RealShelf, StdoutSink, TRIES, read_patiently, write_patiently};
use edge_io::{Failed, Shelf, read_all, say_all, write_all};
use std::cell::Cell;
use std::fmt::Display;
use std::fs;
use std::io::{self, ErrorKind, Read, Write};

// Writes one file and closes it.
fn store<S: Shelf>(shelf: &mut S, name: &str, bytes: &[u8]) -> Result<(), Failed>
    requires { S.in_use shelf.old ≡ Nothing }
    ensures { OnOk result (S.in_use shelf.new ≡ Nothing) }
{
    shelf.create_file(name)?;
    write_all(shelf, bytes)?;
    shelf.close_file()
}

#[test]
fn real_shelf_reads_what_it_wrote(rt: HostRuntime) {
    let alloc = rt.alloc();
    let mut shelf = RealShelf::new(&rt);
    let long = vec![in alloc; 7; 600_000].expect(&rt, "no fault");
    store(&mut shelf, "real_shelf.tmp", b"hello ").expect(&rt, "no fault");
    store(&mut shelf, "real_shelf.tmp", &long).expect(&rt, "no fault");
    let bytes = read_all(alloc, &mut shelf, "real_shelf.tmp", 600_000).expect(&rt, "no fault");
    assert!(rt; bytes.as_slice() == long.as_slice());
    fs::remove_file(&rt, "real_shelf.tmp").expect(&rt, "no fault");
    assert!(rt; shelf.open_file("real_shelf.tmp") == Err(Failed::Fault));
}

// Every write to this device of Linux fails, as one to a full disk does.
#[test]
fn full_disk_is_a_fault_when_the_bytes_go_out(rt: HostRuntime) {
    let mut shelf = RealShelf::new(&rt);
    shelf.create_file("/dev/full").expect(&rt, "no fault");
    assert!(rt; shelf.write(b"hello") == Ok(5));
    assert!(rt; shelf.close_file() == Err(Failed::Fault));
}

// A printer that takes a byte at a time, and keeps the last eight as a number. Its first call is interrupted.
#[derive(Drop)]
struct ByteByByte {
    calls: Cell<u64>,
    text: Cell<u64>,
}

impl Print for ByteByByte {
    fn print<D: Display + Drop>(&self, _value: D) -> io::Result<()> {
        Err(io::Error::from(ErrorKind::Other))
    }

    fn println<D: Display + Drop>(&self, _value: D) -> io::Result<()> {
        Err(io::Error::from(ErrorKind::Other))
    }

    fn write_all(&self, _bytes: &[u8]) -> io::Result<()> {
        Err(io::Error::from(ErrorKind::Other))
    }

    fn write_some(&self, bytes: &[u8]) -> io::Result<usize> {
        let calls = self.calls.get();
        self.calls.set(calls.wrapping_add(1));
        if calls == 0 {
            return Err(io::Error::from(ErrorKind::Interrupted));
        }
        let Some(byte) = bytes.first() else {
            return Ok(0);
        };
        self.text.set(self.text.get() << 8 | u64::from(*byte));
        Ok(1)
    }
}

#[test]
fn standard_output_gets_each_byte_of_a_text_once(rt: HostRuntime) {
    let printer = ByteByByte {
        calls: Cell::new(0),
        text: Cell::new(0),
    };
    say_all(&mut StdoutSink::new(&printer), b"said\n").expect(&rt, "no fault");
    let said = u64::from_be_bytes([0, 0, 0, b's', b'a', b'i', b'd', b'\n']);
    assert!(rt; printer.text.get() == said);
    assert!(rt; printer.calls.get() == 6);
}

// A file whose first calls are interrupted. It is read as ended, and takes one byte at a time.
#[derive(Drop)]
struct Interrupted(usize);

impl Interrupted {
    fn call(&mut self) -> io::Result<()> {
        if self.0 == 0 {
            return Ok(());
        }
        self.0 -= 1;
        Err(io::Error::from(ErrorKind::Interrupted))
    }
}

impl Read for Interrupted {
    fn read(&mut self, _into: &mut [u8]) -> io::Result<usize> {
        self.call()?;
        Ok(0)
    }
}

impl Write for Interrupted {
    fn write(&mut self, bytes: &[u8]) -> io::Result<usize> {
        self.call()?;
        Ok(bytes.len().min(1))
    }

    fn flush(&mut self) -> io::Result<()> {
        Ok(())
    }
}

#[test]
fn interrupted_call_is_made_again(rt: HostRuntime) {
    assert!(rt; read_patiently(&mut Interrupted(TRIES - 1), &mut [0]).expect(&rt, "no fault") == 0);
    assert!(rt; write_patiently(&mut Interrupted(TRIES - 1), b"text").expect(&rt, "no fault") == 1);
    assert!(rt; read_patiently(&mut Interrupted(TRIES), &mut [0]).is_err());
    assert!(rt; write_patiently(&mut Interrupted(TRIES), b"text").is_err());
}

// Readers and writers in memory, and files that each system has.
use crate::{Folder, Reading, Writing};
use sled_base::{Shelf, ShelfFault, Sink, Source};
use std::io;
use std::io::{BufWriter, ErrorKind, Read};
use std::test::Fail;

// A reader over bytes whose second read fails.
#[derive(Drop)]
struct Stumbling<'a> {
    bytes: &'a [u8],
    reads: u8,
}

impl Read for Stumbling<'_> {
    fn read(&mut self, buf: &mut [u8]) -> io::Result<usize> {
        self.reads = self.reads.saturating_add(1);
        if self.reads == 2 {
            return Err(io::Error::from(ErrorKind::Other));
        }
        self.bytes.read(buf)
    }
}

#[test]
fn a_failed_read_is_counted_and_takes_no_byte(rt: HostRuntime) {
    let mut source = Reading::new(Stumbling {
        bytes: b"abc",
        reads: 0,
    });
    let mut buf = [b'.'; 2];
    // How many bytes, what the buffer then holds, and the count.
    let rows: [(Option<usize>, &[u8], u64); 4] = [
        (Some(2), b"ab", 0),
        (None, b"ab", 1),
        (Some(1), b"cb", 1),
        (Some(0), b"cb", 1),
    ];
    for (read, bytes, count) in rows {
        assert_eq!(rt; source.read(&mut buf).ok(), read);
        assert_eq!(rt; buf.as_slice(), bytes);
        assert_eq!(rt; source.faults(), count);
    }
}

#[test]
fn a_write_that_takes_no_byte_is_counted(rt: HostRuntime) {
    let mut held = [b'.'; 3];
    let mut sink = Writing::new(held.as_mut_slice());
    for (piece, taken, count) in [(b"ab", Some(2), 0), (b"cd", Some(1), 0), (b"ef", None, 1)] {
        assert_eq!(rt; sink.write(piece).ok(), taken);
        assert_eq!(rt; sink.faults(), count);
    }
    assert_eq!(rt; &held, b"abc");
}

#[test]
fn a_folder_loads_a_front_or_counts_the_name(rt: HostRuntime) -> Result<(), Fail> {
    let mut shelf = Folder::new(&rt, rt.alloc());
    // A name, the bytes or why there are none, and the count for the name.
    let rows: [(&str, &[u8], Option<ShelfFault>, u64); 4] = [
        ("/dev/null", b"", None, 0),
        ("/dev/zero", b"\0\0\0\0", None, 0),
        (".", b"", Some(ShelfFault::Failed), 1),
        ("no such file", b"", Some(ShelfFault::Failed), 1),
    ];
    for (name, bytes, fault, count) in rows {
        let found = shelf.load(rt.alloc(), name, 3);
        assert_eq!(rt; found.as_ref().err().copied(), fault);
        if let Ok(found) = found {
            assert_eq!(rt; found.as_slice(), bytes);
        }
        assert_eq!(rt; shelf.faults(name), count);
    }
    Ok(())
}

#[test]
fn a_buffer_is_handed_on_by_a_flush(rt: HostRuntime) -> Result<(), Fail> {
    let mut held = [b'.'; 3];
    let mut sink = Writing::new(BufWriter::with_capacity(rt.alloc(), 8, held.as_mut_slice())?);
    // A piece, and whether a flush behind it hands all on: the writer behind has room for three bytes.
    for (piece, taken, flushed, count) in [(b"ab", Some(2), true, 0), (b"cd", Some(2), false, 1)] {
        assert_eq!(rt; sink.write(piece).ok(), taken);
        assert_eq!(rt; sink.flush().is_ok(), flushed);
        assert_eq!(rt; sink.faults(), count);
    }
    Ok(())
}

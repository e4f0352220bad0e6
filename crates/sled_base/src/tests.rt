// What the calls answer with ample memory, on small rows.
use crate::{
    FaultNames, MAX_TEXT, MemShelf, MemSink, MemSource, ReadFault, Shelf, ShelfFault, Sink, Source,
    TextFault, load_text, read_up_to, write_all,
};
use std::test::Fail;

#[test]
fn a_shelf_gives_the_newest_text_or_fails(rt: HostRuntime) -> Result<(), Fail> {
    let mut shelf = MemShelf::new(rt.alloc(), &[2])?;
    shelf.add(b"s", b"old")?;
    shelf.add(b"s", b"text")?;
    // A name and a limit, the text or why there is none, and the count for the name.
    let rows: [(&str, u32, &[u8], Option<ShelfFault>, u64); 4] = [
        ("s", 1, b"te", None, 0),
        ("s", 9, b"", Some(ShelfFault::Failed), 1),
        ("m", 9, b"", Some(ShelfFault::Failed), 1),
        ("s", 9, b"text", None, 1),
    ];
    for (name, limit, text, fault, count) in rows {
        let found = shelf.load(rt.alloc(), name, limit);
        assert_eq!(rt; found.as_ref().err().copied(), fault);
        if let Ok(found) = found {
            assert_eq!(rt; found.as_slice(), text);
        }
        assert_eq!(rt; shelf.faults(name), count);
    }
    Ok(())
}

#[test]
fn a_source_gives_its_bytes_and_then_the_end(rt: HostRuntime) -> Result<(), Fail> {
    let mut source = MemSource::new(rt.alloc(), b"abcde", &[2])?;
    let mut buf = [b'.'; 3];
    // How many bytes, what the buffer then holds, and the count.
    let rows: [(Option<usize>, &[u8], u64); 4] = [
        (Some(3), b"abc", 0),
        (None, b"abc", 1),
        (Some(2), b"dec", 1),
        (Some(0), b"dec", 1),
    ];
    for (read, bytes, count) in rows {
        assert_eq!(rt; source.read(&mut buf).ok(), read);
        assert_eq!(rt; buf.as_slice(), bytes);
        assert_eq!(rt; source.faults(), count);
    }
    Ok(())
}

#[test]
fn a_source_gives_its_bytes_in_pieces(rt: HostRuntime) -> Result<(), Fail> {
    let mut source = MemSource::in_pieces(rt.alloc(), b"abcdefgh", &[2, 0, 9, 9], &[3])?;
    let mut buf = [b'.'; 3];
    // How many bytes, and what the buffer then holds.
    let rows: [(Option<usize>, &[u8]); 6] = [
        (Some(2), b"ab."),
        (Some(1), b"cb."),
        (None, b"cb."),
        (Some(3), b"def"),
        (Some(2), b"ghf"),
        (Some(0), b"ghf"),
    ];
    for (read, bytes) in rows {
        assert_eq!(rt; source.read(&mut buf).ok(), read);
        assert_eq!(rt; buf.as_slice(), bytes);
    }
    Ok(())
}

#[test]
fn a_sink_takes_what_it_has_room_for(rt: HostRuntime) -> Result<(), Fail> {
    let mut sink = MemSink::new(rt.alloc(), 5, &[2])?;
    // A piece, how much of it was taken, what the sink then holds, and the count.
    let rows: [(&[u8], Option<usize>, &[u8], u64); 4] = [
        (b"abc", Some(3), b"abc", 0),
        (b"de", None, b"abc", 1),
        (b"def", Some(2), b"abcde", 1),
        (b"f", None, b"abcde", 2),
    ];
    for (piece, taken, bytes, count) in rows {
        assert!(rt; !piece.is_empty());
        assert_eq!(rt; sink.write(piece).ok(), taken);
        assert_eq!(rt; sink.bytes(), bytes);
        assert_eq!(rt; sink.faults(), count);
    }
    Ok(())
}

#[test]
fn a_text_is_whole_up_to_the_limit(rt: HostRuntime) -> Result<(), Fail> {
    let most = MAX_TEXT as usize;
    // The failing loads, the name, the length of the text `s`, and why there is none.
    let rows: [(&[u64], &str, usize, Option<TextFault>); 5] = [
        (&[], "s", 0, None),
        (&[], "s", most, None),
        (&[], "s", most + 1, Some(TextFault::TooLong)),
        (&[1], "s", 1, Some(TextFault::Unread)),
        (&[], "m", 1, Some(TextFault::Unread)),
    ];
    for (failing, name, length, fault) in rows {
        let text = vec![in rt.alloc(); b' '; length]?;
        let mut shelf = MemShelf::new(rt.alloc(), failing)?;
        shelf.add(b"s", &text)?;
        let found = load_text(rt.alloc(), &mut shelf, name);
        assert_eq!(rt; found.as_ref().err().copied(), fault);
        if let Ok(found) = found {
            assert!(rt; found.as_slice() == text.as_slice());
        }
    }
    Ok(())
}

#[test]
fn all_bytes_or_a_proper_prefix_are_written(rt: HostRuntime) -> Result<(), Fail> {
    // The room, the failing writes, the bytes, whether all are written, and what the sink then holds.
    let rows: [(u32, &[u64], &[u8], bool, &[u8]); 4] = [
        (6, &[], b"abcdef", true, b"abcdef"),
        (4, &[], b"abcdef", false, b"abcd"),
        (6, &[1], b"abcdef", false, b""),
        (0, &[1], b"", true, b""),
    ];
    for (room, failing, bytes, all, held) in rows {
        let mut sink = MemSink::new(rt.alloc(), room, failing)?;
        assert_eq!(rt; write_all(&mut sink, bytes).is_ok(), all);
        assert_eq!(rt; sink.bytes(), held);
    }
    Ok(())
}

#[test]
fn a_source_is_read_piece_by_piece(rt: HostRuntime) -> Result<(), Fail> {
    let bytes = vec![in rt.alloc(); b'x'; 5000]?;
    // The failing reads, the most bytes that are wanted, and how many come.
    let rows: [(&[u64], usize, Result<usize, ReadFault>); 4] = [
        (&[], 6000, Ok(5000)),
        (&[], 4999, Ok(4999)),
        (&[1], 0, Ok(0)),
        (&[2], 5000, Err(ReadFault::Unread)),
    ];
    for (failing, most, want) in rows {
        let mut source = MemSource::new(rt.alloc(), &bytes, failing)?;
        let found = read_up_to(rt.alloc(), &mut source, most);
        assert_eq!(rt; found.map(|v| v.len()), want);
    }
    Ok(())
}

#[test]
fn failures_are_counted_by_name(rt: HostRuntime) -> Result<(), Fail> {
    let mut names = FaultNames::new(rt.alloc());
    for name in ["s", "m", "s"] {
        let copy = names.prepare(rt.alloc(), name)?;
        names.keep(copy);
    }
    assert_eq!(rt;
        (names.count("s"), names.count("m"), names.count("t")),
        (2, 1, 0)
    );
    Ok(())
}

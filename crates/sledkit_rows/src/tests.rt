// Whole runs over texts, an input and sinks in memory.
use program_runs::{Outside, answer, sound};
use sled_base::{MemShelf, MemSink, MemSource};
use std::test::Fail;
use toolkit_cli::{Status, run};

const SPEC: &str = "fields of w (32) op 24:31 v 0:23";

const MATCH: &str = "match case op = 1 & v => \"load {v}\" case op = 2 => \"stop\"";

const BYTE: &str = "fields of b (8) x 0:7";

const GROUP: &str = "fields of b (8) x 0:7 patterns g [ p _ q ] is x = {1 to 3}";

const BYTE_AND_LONG: &str = "fields of b (8) x 0:7 fields of w (32) v 0:31";

const BYTE_AND_HALF: &str = "fields of b (8) x 0:7 hi 4:7 fields of h (16 little) y 0:15";

const USAGE: &str = "usage: sledkit dis SPEC MATCH BASE\n";

// Arms of the greatest weight, 8 for each of four parts multiplied; the greatest sum of weights; and one more of each.
const GREATEST_WEIGHTS: &str = "match case x != 0 & x != 1 ; x != 2 & x != 3 => \"a\"
    case x != 0 & x != 1 ; x != 2 & x != 3 => \"b\" case x != 0 & x != 1 ; x != 2 & x != 3 => \"c\"
    case x != 0 & x != 1 ; x != 2 & x != 3 => \"d\"";

const LOAD_AND_STOP: &[u8] = b"\x01\0\0\x05\x02\0\0\0";

#[test]
fn listings(rt: HostRuntime) -> Result<(), Fail> {
    let any_byte = "match case x => \"{x}\"";
    // SPEC, MATCH, BASE, the input; the status, the output, the notes.
    let rows: [(&str, &str, &str, &[u8], Status, &str, &str); 8] = [
        (
            SPEC,
            MATCH,
            "0x10",
            LOAD_AND_STOP,
            Status::Done,
            "00000010: 01000005  load 5\n00000014: 02000000  stop\n",
            "",
        ),
        (SPEC, MATCH, "0", b"", Status::Done, "", ""),
        ("", "match", "0", b"", Status::Done, "", ""),
        (
            SPEC,
            MATCH,
            "0x10",
            b"\x01\0\0\x05\x02\0\0",
            Status::Refused(9),
            "00000010: 01000005  load 5\n",
            "input: error 9: no arm matches at 00000014\n",
        ),
        (
            SPEC,
            MATCH,
            "16",
            b"\x01\0\0\x05\x03\0\0\0",
            Status::Refused(9),
            "00000010: 01000005  load 5\n",
            "input: error 9: no arm matches at 00000014\n",
        ),
        (
            SPEC,
            MATCH,
            "0xfffffffc",
            LOAD_AND_STOP,
            Status::Refused(10),
            "fffffffc: 01000005  load 5\n",
            "input: error 10: address 2^32 reached at 100000000\n",
        ),
        (
            BYTE,
            any_byte,
            "4294967292",
            b"\x01\x02\x03\x04\x05",
            Status::Refused(10),
            "fffffffc: 01  1\nfffffffd: 02  2\nfffffffe: 03  3\nffffffff: 04  4\n",
            "input: error 10: address 2^32 reached at 100000000\n",
        ),
        (
            "fields of h (16) hi 8:15 lo 0:7",
            "match case lo & hi = 0x12 => \"{lo}\"",
            "0",
            b"\x12\x34",
            Status::Done,
            "00000000: 1234  52\n",
            "",
        ),
    ];
    for (spec, matching, base, input, status, output, told) in rows {
        let (found, out, notes) = answer(
            rt.alloc(),
            &["dis", "s", "m", base],
            &sound(spec, matching, input),
        )?;
        assert_eq!(rt; found, status);
        assert_eq!(rt; out.bytes(), output.as_bytes());
        assert_eq!(rt; notes.bytes(), told.as_bytes());
    }
    Ok(())
}

#[test]
fn listings_of_wider_forms(rt: HostRuntime) -> Result<(), Fail> {
    let labels =
        "match case x = 1 ; here: y => \"{here} {y}\" case hi = 2 ... & (x ; y) => \"pair {x} {y}\"";
    let skip = "match case x > 4 | x = 0 => \"a\" else skip 2";
    let long = "match case x = 1 ; v => \"long {v}\" case x = 1 => \"short\" else skip 3";
    let members = "match case p => \"p\" case g => \"g\" case b => \"byte\"";
    // SPEC, MATCH, BASE, the input; the output.
    let rows: [(&str, &str, &str, &[u8], &str); 6] = [
        (
            BYTE,
            "match case x = 1 ... & (x = 1 ; x = 2) => \"two\" case x = 3 ... & x => \"one {x}\"",
            "0",
            b"\x01\x02\x03",
            "00000000: 0102  two\n00000002: 03  one 3\n",
        ),
        (BYTE, GREATEST_WEIGHTS, "0", b"", ""),
        (
            GROUP,
            members,
            "0",
            b"\x01\x02\x03",
            "00000000: 01  p\n00000001: 02  byte\n00000002: 03  g\n",
        ),
        (
            BYTE_AND_HALF,
            labels,
            "0x100",
            b"\x01\x02\x00\x21\x34\x12",
            "00000100: 010200  257 2\n00000103: 213412  pair 33 4660\n",
        ),
        (
            BYTE,
            skip,
            "0",
            b"\x05\x00\x04\x01",
            "00000000: 05  a\n00000001: 00  a\n00000002: 0401  .skip 2\n",
        ),
        (
            BYTE_AND_LONG,
            long,
            "0",
            b"\x01\x00\x00\x00",
            "00000000: 01  short\n00000001: 000000  .skip 3\n",
        ),
    ];
    for (spec, matching, base, input, output) in rows {
        let (found, out, notes) = answer(
            rt.alloc(),
            &["dis", "s", "m", base],
            &sound(spec, matching, input),
        )?;
        assert_eq!(rt; found, Status::Done);
        assert_eq!(rt; out.bytes(), output.as_bytes());
        assert!(rt; notes.bytes().is_empty());
    }
    Ok(())
}

#[test]
fn words_without_form(rt: HostRuntime) -> Result<(), Fail> {
    let rows: [&[&str]; 10] = [
        &[],
        &["dis", "s", "m"],
        &["dis", "s", "m", "0", "0"],
        &["asm", "s", "m", "0"],
        &["dis", "@s", "m", "0"],
        &["dis", "s", "@all", "0"],
        &["dis", "s", "", "0"],
        &["dis", "s", "m", "4294967296"],
        &["dis", "s", "m", "0x"],
        &["dis", "s", "m", "-1"],
    ];
    for words in rows {
        let (found, out, notes) = answer(rt.alloc(), words, &sound(SPEC, MATCH, LOAD_AND_STOP))?;
        assert_eq!(rt; found, Status::Usage);
        assert!(rt; out.bytes().is_empty());
        assert_eq!(rt; notes.bytes(), USAGE.as_bytes());
    }
    Ok(())
}

#[test]
fn failing_calls(rt: HostRuntime) -> Result<(), Fail> {
    let first = "00000010: 01000005  load 5\n";
    let both = "00000010: 01000005  load 5\n00000014: 02000000  stop\n";
    let no_match: &[u8] = b"\x01\0\0\x05\x03\0\0\0";
    let spec_unread = "s: error 1: cannot be read\n";
    let match_unread = "m: error 1: cannot be read\n";
    let input_unread = "input: error 1: cannot be read\n";
    let read = Status::ReadFault;
    let write = Status::WriteFault;
    // SPEC's name, the input, the calls of shelf, input, output and notes that fail, the room of the output; the status, the output,
    // the notes.
    let rows: [(&str, &[u8], [&[u64]; 4], u32, Status, &str, &str); 13] = [
        (
            "x",
            LOAD_AND_STOP,
            [&[], &[], &[], &[]],
            200,
            read,
            "",
            "x: error 1: cannot be read\n",
        ),
        (
            "s",
            LOAD_AND_STOP,
            [&[1], &[], &[], &[]],
            200,
            read,
            "",
            spec_unread,
        ),
        (
            "s",
            LOAD_AND_STOP,
            [&[2], &[], &[], &[]],
            200,
            read,
            "",
            match_unread,
        ),
        (
            "s",
            LOAD_AND_STOP,
            [&[], &[1], &[], &[]],
            200,
            read,
            "",
            input_unread,
        ),
        (
            "s",
            LOAD_AND_STOP,
            [&[], &[2], &[], &[]],
            200,
            read,
            "",
            input_unread,
        ),
        (
            "s",
            LOAD_AND_STOP,
            [&[], &[], &[1], &[]],
            200,
            write,
            "",
            "",
        ),
        (
            "s",
            LOAD_AND_STOP,
            [&[], &[], &[2], &[]],
            200,
            write,
            first,
            "",
        ),
        (
            "s",
            LOAD_AND_STOP,
            [&[], &[], &[], &[]],
            27,
            write,
            first,
            "",
        ),
        (
            "s",
            LOAD_AND_STOP,
            [&[1], &[], &[], &[1]],
            200,
            write,
            "",
            "",
        ),
        (
            "s",
            LOAD_AND_STOP,
            [&[], &[1], &[], &[1]],
            200,
            write,
            "",
            "",
        ),
        ("s", no_match, [&[], &[], &[], &[1]], 200, write, first, ""),
        (
            "@s",
            LOAD_AND_STOP,
            [&[], &[], &[], &[1]],
            200,
            write,
            "",
            "",
        ),
        // one call more than there are
        (
            "s",
            LOAD_AND_STOP,
            [&[3], &[3], &[3], &[1]],
            200,
            Status::Done,
            both,
            "",
        ),
    ];
    for (
        name,
        input,
        [shelf_fails, input_fails, out_fails, notes_fail],
        room,
        status,
        output,
        told,
    ) in rows {
        let outside = Outside {
            spec: SPEC,
            matching: MATCH,
            input,
            sizes: &[],
            shelf_fails,
            input_fails,
            out_fails,
            room,
            notes_fail,
        };
        let (found, out, notes) = answer(rt.alloc(), &["dis", name, "m", "0x10"], &outside)?;
        assert_eq!(rt; found, status);
        assert_eq!(rt; out.bytes(), output.as_bytes());
        assert_eq!(rt; notes.bytes(), told.as_bytes());
    }
    Ok(())
}

#[test]
fn longest_texts(rt: HostRuntime) -> Result<(), Fail> {
    let alloc = rt.alloc();
    let too_long = "s: error 2: text has more than 1048576 bytes\n";
    for (length, status, told) in [
        (1_048_576, Status::Done, ""),
        (1_048_577, Status::Refused(2), too_long),
    ] {
        let mut blanks = Vec::new(alloc);
        blanks.resize(length, b' ')?;
        let mut shelf = MemShelf::new(alloc, &[])?;
        shelf.add(b"s", &blanks)?;
        shelf.add(b"m", b"match")?;
        let mut words = Vec::new(alloc);
        for word in ["dis", "s", "m", "0"] {
            words.push(String::from_str(alloc, word)?)?;
        }
        let mut input = MemSource::new(alloc, b"", &[])?;
        let mut out = MemSink::new(alloc, 10, &[])?;
        let mut notes = MemSink::new(alloc, 200, &[])?;
        let found = run(alloc, &words, &mut shelf, &mut input, &mut out, &mut notes);
        assert_eq!(rt; found, status);
        assert_eq!(rt; notes.bytes(), told.as_bytes());
    }
    Ok(())
}

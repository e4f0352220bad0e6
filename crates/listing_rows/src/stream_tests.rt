// An input that comes in pieces, and one whose reads fail.
use crate::application_tests::{ADDS, PROCEDURE, PROCEDURE_LINES};
use machine_texts::{I486, SPARC};
use program_runs::{Outside, answer};
use std::test::Fail;
use toolkit_cli::Status;

const SPEC: &str = "fields of w (32) op 24:31 v 0:23";

const SET: &str = "match case op = 2 & v => \"set {v}\"";

const SET_OR_SKIP: &str = "match case op = 2 & v => \"set {v}\" else skip 3";

// Two words, and three bytes that are skipped.
const SHORT: &[u8] = b"\x02\0\0\x01\x02\0\0\x02\x01\x02\x03";

// Ten words; the same with a second one that no arm matches.
const TEN: &[u8] =
    b"\x02\0\0\x01\x02\0\0\x02\x02\0\0\x03\x02\0\0\x04\x02\0\0\x05\x02\0\0\x06\x02\0\0\x07\x02\0\0\x08\x02\0\0\x09\x02\0\0\x0a";

const TEN_REFUSED: &[u8] =
    b"\x02\0\0\x01\x03\0\0\x02\x02\0\0\x03\x02\0\0\x04\x02\0\0\x05\x02\0\0\x06\x02\0\0\x07\x02\0\0\x08\x02\0\0\x09\x02\0\0\x0a";

#[test]
fn an_input_in_pieces_is_listed_as_a_whole_one(rt: HostRuntime) -> Result<(), Fail> {
    let ones = [1; 11];
    let fives = [5; 3];
    let pieces: [&[u32]; 3] = [&ones, &fives, &[]];
    let lines = "00000000: 02000001  set 1\n00000004: 02000002  set 2\n00000008: 010203  .skip 3\n";
    // SPEC, MATCH, the input; the output.
    let rows: [(&str, &str, &[u8], &str); 2] = [
        (SPEC, SET_OR_SKIP, SHORT, lines),
        (I486, "match all", PROCEDURE, PROCEDURE_LINES),
    ];
    for (spec, matching, input, output) in rows {
        for sizes in pieces {
            let outside = Outside {
                spec,
                matching,
                input,
                sizes,
                shelf_fails: &[],
                input_fails: &[],
                out_fails: &[],
                room: 800,
                notes_fail: &[],
            };
            let (found, out, notes) = answer(rt.alloc(), &["dis", "s", "m", "0"], &outside)?;
            assert_eq!(rt; found, Status::Done);
            assert_eq!(rt; out.bytes(), output.as_bytes());
            assert!(rt; notes.bytes().is_empty());
        }
    }
    Ok(())
}

#[test]
fn what_was_read_before_a_read_that_fails(rt: HostRuntime) -> Result<(), Fail> {
    let front = "00000000: 02000001  set 1\n00000004: 02000002  set 2\n00000008: 02000003  set 3\n";
    let first = "00000000: 02000001  set 1\n";
    let added =
        "00000000: 86006002  add(1, imode(2), 3)\n00000004: 86006002  add(1, imode(2), 3)\n00000008: 86006002  add(1, imode(2), 3)\n";
    let unread = "input: error 1: cannot be read\n";
    let refused = "input: error 9: no arm matches at 00000004\n";
    let sevens = [7; 6];
    let words = (SPEC, SET);
    let all = (SPARC, "match all");
    // SPEC and MATCH, the input, the sizes and the read that fails; the status, the output, the notes.
    let rows: [((&str, &str), &[u8], &[u32], u64, Status, &str, &str); 7] = [
        (words, TEN, &[], 3, Status::ReadFault, front, unread),
        (words, TEN, &[], 2, Status::ReadFault, first, unread),
        (words, TEN, &sevens, 7, Status::ReadFault, front, unread),
        (words, TEN, &sevens, 5, Status::ReadFault, "", unread),
        (
            words,
            TEN_REFUSED,
            &[],
            3,
            Status::Refused(9),
            first,
            refused,
        ),
        (all, ADDS, &[], 3, Status::ReadFault, added, unread),
        (all, ADDS, &sevens, 7, Status::ReadFault, added, unread),
    ];
    for ((spec, matching), input, sizes, fails, status, output, told) in rows {
        let outside = Outside {
            spec,
            matching,
            input,
            sizes,
            shelf_fails: &[],
            input_fails: &[fails],
            out_fails: &[],
            room: 200,
            notes_fail: &[],
        };
        let (found, out, notes) = answer(rt.alloc(), &["dis", "s", "m", "0"], &outside)?;
        assert_eq!(rt; found, status);
        assert_eq!(rt; out.bytes(), output.as_bytes());
        assert_eq!(rt; notes.bytes(), told.as_bytes());
    }
    Ok(())
}

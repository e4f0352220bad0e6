// Statements whose arms apply constructors, over descriptions of machines.
use machine_texts::{I486, MIPS, SPARC};
use program_runs::{Outside, answer, sound};
use std::test::Fail;
use toolkit_cli::Status;

const ALL: &str = "match all";

// A machine of two instructions.
const TWO: &str = "fields of w (32) op 24:31 v 0:23
    constructors load(v) is op = 1 & v stop() is op = 2";

const BYTE: &str = "fields of b (8) x 0:7";

// Five times two bytes; but a constructor of up to seven bytes counts whole.
const SHORT_ALTERNATIVES: &str =
    "case mov_rm(_, r(_)) ; mov_rm(_, r(_)) ; mov_rm(_, r(_)) ; mov_rm(_, r(_)) ; mov_rm(_, r(_)) => \"a\"";

// Of weight 34 three times.
const HEAVY: &str = "case mov_rm(_, _) ; mov_rm(_, _) ; mov_rm(_, _) => \"a\"";

// Types, one of which holds another, and an equation with a label.
const TYPED: &str = "fields of b (8) op 4:7 r 0:3
    fields of i (8) n 0:7
    constructors
      reg(r) : place is op = 1 & r
      at(r, n!) : place is op = 2 & r ; n
      lit(n) : source is op = 3 ; n
      blank() : none is epsilon
      held(place) : source is place
      move(source, r) is source ; op = 4 & r
      jump(t) { t = L + 2 * n! } is op = 5 & r = 0 ; n ; L: epsilon";

// A loop that sums words.
const SUM: &[u8] =
    b"\x80\x92\x40\0\x04\x80\0\x07\x94\x10\x20\0\xd6\x02\x20\0\x90\x02\x20\x04\x92\x82\x7f\xff\x14\xbf\xff\xfd\x94\x02\x80\x0b\x81\xc3\xe0\x08\x90\x12\x80\0";

const SUM_LINES: &str = "00000000: 80924000  orcc(9, rmode(0), 0)
00000004: 04800007  ble(32)
00000008: 94102000  or(0, imode(0), 10)
0000000c: d6022000  ld(8, imode(0), 11)
00000010: 90022004  add(8, imode(4), 8)
00000014: 92827fff  addcc(9, imode(-1), 9)
00000018: 14bffffd  bg(12)
0000001c: 9402800b  add(10, rmode(11), 10)
00000020: 81c3e008  jmpl(15, imode(8), 0)
00000024: 90128000  or(10, rmode(0), 8)
";

// A procedure that gives back its argument.
pub(crate) const PROCEDURE: &[u8] = b"\x55\x89\xe5\x8b\x45\x08\x5d\xc3";

pub(crate) const PROCEDURE_LINES: &str = "00000000: 55  push(5)
00000001: 89e5  mov_mr(r(5), 4)
00000003: 8b4508  mov_rm(0, m(at8(5, 8)))
00000006: 5d  pop(5)
00000007: c3  ret()
";

const IMMEDIATES: &[u8] = b"\xc7\x45\xfc\x01\0\0\0\x6a\0\x0f\xaf\xc3\xc9\xc3";

const IMMEDIATE_LINES: &str = "00000000: c745fc01000000  mov_mi(m(at8(5, -4)), 1)
00000007: 6a00  push_i8(0)
00000009: 0fafc3  imul_rm(0, r(3))
0000000c: c9  leave()
0000000d: c3  ret()
";

// Ten times the same word.
pub(crate) const ADDS: &[u8] =
    b"\x86\0\x60\x02\x86\0\x60\x02\x86\0\x60\x02\x86\0\x60\x02\x86\0\x60\x02\x86\0\x60\x02\x86\0\x60\x02\x86\0\x60\x02\x86\0\x60\x02\x86\0\x60\x02";

#[test]
fn instructions_of_machines(rt: HostRuntime) -> Result<(), Fail> {
    // SPEC, BASE, the input; the output.
    let rows: [(&str, &str, &[u8], &str); 9] = [
        (
            MIPS,
            "0",
            b"\x27\xbd\xff\xe0\x03\xe0\0\x08",
            "00000000: 27bdffe0  addiu(29, 29, -32)\n00000004: 03e00008  jr(31)\n",
        ),
        (
            MIPS,
            "0x1000",
            b"\x14\x40\xff\xff",
            "00001000: 1440ffff  bne(2, 0, 4096)\n",
        ),
        (
            I486,
            "0",
            b"\x8b\x44\x24\x04",
            "00000000: 8b442404  mov_rm(0, m(based8(4, 4)))\n",
        ),
        (I486, "0", PROCEDURE, PROCEDURE_LINES),
        (I486, "0", IMMEDIATES, IMMEDIATE_LINES),
        (
            I486,
            "0x100",
            b"\xeb\xfe\xeb\x7f",
            "00000100: ebfe  jmp8(256)\n00000102: eb7f  jmp8(387)\n",
        ),
        (SPARC, "0", SUM, SUM_LINES),
        (
            SPARC,
            "0x1000",
            b"\x40\0\0\x04\x03\x04\x8d\x15",
            "00001000: 40000004  call(4112)\n00001004: 03048d15  sethi(305419264, 1)\n",
        ),
        (SPARC, "0", b"", ""),
    ];
    for (spec, base, input, output) in rows {
        let (found, out, notes) = answer(
            rt.alloc(),
            &["dis", "s", "m", base],
            &sound(spec, ALL, input),
        )?;
        assert_eq!(rt; found, Status::Done);
        assert_eq!(rt; out.bytes(), output.as_bytes());
        assert!(rt; notes.bytes().is_empty());
    }
    Ok(())
}

#[test]
fn arms_that_apply_constructors(rt: HostRuntime) -> Result<(), Fail> {
    let inner = "match
        case mov_rm(d, m(at8(b, n))) => \"load {d} from {b} and {n}\"
        case mov_rm(d, e) => \"move {d}: {e}\"
        case movsd() => \"movsd\"
        else skip 1";
    let label = "match
        case here: call(target) => \"{here} calls {target}\"
        case add(_, imode(n), d) => \"add {n} to {d}\"";
    let nested = "match
        case move(held(reg(a)), d) => \"{d} from {a}\"
        case move(held(p), _) ; here: epsilon => \"{p} up to {here}\"
        case move(s, d) => \"{s} into {d}\"
        case jump(t) => \"to {t}\"";
    let either = "match
        case move(held(reg(a)), d) | move(lit(a), d) => \"{a} into {d}\"
        case op = 2 ... & move(s, _) => \"first {s}\"
        case reg(a) => \"register {a}\"";
    // SPEC, MATCH, BASE, the input; the output.
    let rows: [(&str, &str, &str, &[u8], &str); 7] = [
        (
            I486,
            "match case movsd() => \"movsd\" else skip 1",
            "0",
            b"\xf3\xa5",
            "00000000: f3  .skip 1\n00000001: a5  movsd\n",
        ),
        (
            I486,
            inner,
            "0",
            b"\x8b\x45\x08\x8b\x45\xfc\x8b\xc3\x8b\x44\x24\x04\xf3",
            "00000000: 8b4508  load 0 from 5 and 8
00000003: 8b45fc  load 0 from 5 and -4
00000006: 8bc3  move 0: r(3)
00000008: 8b442404  move 0: m(based8(4, 4))
0000000c: f3  .skip 1
",
        ),
        (
            SPARC,
            label,
            "0x1000",
            b"\x40\0\0\x04\x86\0\x60\x02",
            "00001000: 40000004  4096 calls 4112\n00001004: 86006002  add 2 to 3\n",
        ),
        (
            TWO,
            ALL,
            "0x10",
            b"\x01\0\0\x05\x02\0\0\0",
            "00000010: 01000005  load(5)\n00000014: 02000000  stop()\n",
        ),
        (
            TYPED,
            ALL,
            "0",
            b"\x17\x42\x28\xff\x43\x30\x09\x44\x50\xfe",
            "00000000: 1742  move(held(reg(7)), 2)
00000002: 28ff43  move(held(at(8, -1)), 3)
00000005: 300944  move(lit(9), 4)
00000008: 50fe  jump(6)
",
        ),
        (
            TYPED,
            nested,
            "0",
            b"\x17\x42\x28\xff\x43\x30\x09\x44\x50\xfe",
            "00000000: 1742  2 from 7
00000002: 28ff43  at(8, -1) up to 5
00000005: 300944  lit(9) into 4
00000008: 50fe  to 6
",
        ),
        (
            TYPED,
            either,
            "0",
            b"\x17\x42\x28\xff\x43\x30\x09\x44\x1f",
            "00000000: 1742  7 into 2
00000002: 28ff43  first held(at(8, -1))
00000005: 300944  9 into 4
00000008: 1f  register 15
",
        ),
    ];
    for (spec, matching, base, input, output) in rows {
        let (found, out, notes) = answer(
            rt.alloc(),
            &["dis", "s", "m", base],
            &sound(spec, matching, input),
        )?;
        assert_eq!(rt; found, Status::Done);
        assert_eq!(rt; out.bytes(), output.as_bytes());
        assert!(rt; notes.bytes().is_empty());
    }
    Ok(())
}

#[test]
fn inputs_that_no_instruction_has(rt: HostRuntime) -> Result<(), Fail> {
    let nothing = "input: error 9: no arm matches at 00000000\n";
    let second = "input: error 9: no arm matches at 00000004\n";
    let past = "input: error 10: address 2^32 reached at fffffffe\n";
    // SPEC, MATCH, BASE, the input; the number, the output, the notes.
    let rows: [(&str, &str, &str, &[u8], u8, &str, &str); 6] = [
        (I486, ALL, "0", b"\x8b\x44\x24", 9, "", nothing),
        (BYTE, ALL, "0", b"\0", 9, "", nothing),
        (
            TWO,
            ALL,
            "0",
            b"\x01\0\0\x05\x03\0\0\0",
            9,
            "00000000: 01000005  load(5)\n",
            second,
        ),
        (
            SPARC,
            "match case add(_, imode(_), _) => \"add\"",
            "0",
            b"\x86\0\x60\x02\x86\0\x40\x02",
            9,
            "00000000: 86006002  add\n",
            second,
        ),
        (TWO, ALL, "0xfffffffe", b"\x02\0\0\0", 10, "", past),
        (
            BYTE,
            "match else skip 3",
            "0xfffffffe",
            b"\0\0\0",
            10,
            "",
            past,
        ),
    ];
    for (spec, matching, base, input, number, output, told) in rows {
        let (found, out, notes) = answer(
            rt.alloc(),
            &["dis", "s", "m", base],
            &sound(spec, matching, input),
        )?;
        assert_eq!(rt; found, Status::Refused(number));
        assert_eq!(rt; out.bytes(), output.as_bytes());
        assert_eq!(rt; notes.bytes(), told.as_bytes());
    }
    Ok(())
}

#[test]
fn conditions_of_applications(rt: HostRuntime) -> Result<(), Fail> {
    // SPEC, the arms; the number of the arm and the condition.
    let rows: [(&str, &str, u64, u64); 18] = [
        (TWO, "case v: stop() => \"a\"", 1, 1),
        (TWO, "case stop() => \"a\" case halt() => \"b\"", 2, 2),
        (TWO, "case load() => \"a\"", 1, 2),
        (TWO, "case load(stop()) => \"a\"", 1, 2),
        (TYPED, "case move(a) => \"a\"", 1, 2),
        (TYPED, "case move(reg(a), b) => \"a\"", 1, 2),
        (TYPED, "case reg(lit(a)) => \"a\"", 1, 2),
        (TYPED, "case move(a, b) & jump(c) => \"a\"", 1, 6),
        (TWO, "case stop() ... => \"a\"", 1, 7),
        (TWO, "case load(a) | stop() => \"a\"", 1, 8),
        (TYPED, "case move(lit(a), a) => \"a\"", 1, 9),
        (TYPED, "case reg(a) ; reg(a) => \"a\"", 1, 9),
        (TYPED, "case at(a, a) => \"a\"", 1, 9),
        (TYPED, "case blank() => \"a\"", 1, 14),
        (I486, SHORT_ALTERNATIVES, 1, 14),
        (I486, HEAVY, 1, 15),
        (TWO, "case load(a) => \"{v}\"", 1, 16),
        (TWO, "all else skip 33", 3, 14),
    ];
    for (spec, arms, number, condition) in rows {
        let matching = format!(in rt.alloc(); "match {arms}")?;
        let told = format!(in rt.alloc();
            "m: error 8: arm {number} does not meet condition {condition}\n"
        )?;
        let (found, out, notes) = answer(
            rt.alloc(),
            &["dis", "s", "m", "0"],
            &sound(spec, matching.as_str(), b"\0"),
        )?;
        assert_eq!(rt; found, Status::Refused(8));
        assert!(rt; out.bytes().is_empty());
        assert_eq!(rt; notes.bytes(), told.as_bytes());
    }
    Ok(())
}

// Texts that are refused, each by its number and condition, and texts that just meet a condition.
use machine_texts::{I486, MIPS, SPARC};
use program_runs::{answer, sound};
use std::test::Fail;
use toolkit_cli::Status;

const SPEC: &str = "fields of w (32) op 24:31 v 0:23";

const BYTE: &str = "fields of b (8) x 0:7";

const GROUP: &str = "fields of b (8) x 0:7 patterns g [ p _ q ] is x = {1 to 3}";

const BYTE_AND_LONG: &str = "fields of b (8) x 0:7 fields of w (32) v 0:31";

const BYTE_AND_HALF: &str = "fields of b (8) x 0:7 hi 4:7 fields of h (16 little) y 0:15";

const CLASSES_AND_GROUP: &str = "fields of b (8) x 0:3 y 4:7 fields of h (16) w 0:15
    patterns g [ q _ r ] is x = {1 to 3}";

const WEIGHT_ONE_TOO_HIGH: &str =
    "case x != 0 ; x != 1 ; x != 2 ; x != 3 | x = 0 ; x = 1 ; x = 2 ; x = 3 => \"a\"";

const SUM_ONE_TOO_HIGH: &str = "case x != 0 ; x != 1 ; x != 2 ; x != 3 => \"a\"
    case x != 0 ; x != 1 ; x != 2 ; x != 3 => \"b\" case x != 0 ; x != 1 ; x != 2 ; x != 3 => \"c\"
    case x != 0 ; x != 1 ; x != 2 ; x != 3 => \"d\" case x = 0 => \"e\"";

#[test]
fn conditions_of_declarations(rt: HostRuntime) -> Result<(), Fail> {
    // What stands behind the class of bytes; the number of the declaration and the condition.
    let rows: [(&str, u64, u64); 13] = [
        ("patterns g [ p q ] is x = {1 to 3}", 2, 5),
        ("patterns p is x = {1 to 3}", 2, 5),
        ("patterns p is x", 2, 2),
        ("patterns p is q", 2, 2),
        ("patterns p is L: x = 1", 2, 9),
        ("patterns p is x: x = 1", 2, 1),
        ("patterns p is x = 1 p is x = 2", 3, 1),
        ("patterns p is x = 1 ... ; x = 2", 2, 7),
        ("patterns p is x = 256", 2, 4),
        ("fields of c (8) z 0:8", 2, 3),
        ("fields of h (16) y 0:15 patterns p is x = 1 & y = 2", 3, 6),
        ("fields of h (16) y 0:15 patterns p is x = 1 | y = 2", 3, 8),
        ("patterns p is L: x = 1 | x = 2", 2, 8),
    ];
    for (more, number, condition) in rows {
        let spec = format!(in rt.alloc(); "{BYTE} {more}")?;
        let told = format!(in rt.alloc();
            "s: error 8: declaration {number} does not meet condition {condition}\n"
        )?;
        let (found, out, notes) = answer(
            rt.alloc(),
            &["dis", "s", "m", "0"],
            &sound(spec.as_str(), "match", b"\0"),
        )?;
        assert_eq!(rt; found, Status::Refused(8));
        assert!(rt; out.bytes().is_empty());
        assert_eq!(rt; notes.bytes(), told.as_bytes());
    }
    Ok(())
}

#[test]
fn conditions_of_constructors(rt: HostRuntime) -> Result<(), Fail> {
    // What stands behind the classes and the group; the condition.
    let rows: [(&str, u64); 46] = [
        ("c(x, x) is x", 1),
        ("c(t) is t: x", 1),
        ("c() is L: x = 1 & (L: y = 2)", 1),
        ("c() is y: x = 1", 1),
        ("c(x : b) is x", 1),
        ("c(y) : x is y", 1),
        ("c(a : t) : t is a", 1),
        ("c(b) is x = 1", 2),
        ("c(y!) is z & y", 2),
        ("c(a : b) is a", 2),
        ("c(n) { n = m + x } is x", 2),
        ("c(n) { n = b! + x } is x", 2),
        ("c() is d(x)", 2),
        ("c() is x = 16", 4),
        ("c() is x = {1 2}", 5),
        ("c() is x = 1 & w = 1", 6),
        ("c() is x = 1 ...", 7),
        ("c() is x = 1 ... ; w = 1", 7),
        ("c() is x = 1 | w = 1", 8),
        ("c(x) is x | y = 1", 8),
        ("c(x) is x & x", 9),
        ("c(x) is y = 1", 10),
        ("c(n) is x = 1", 10),
        ("c() is x", 10),
        ("c(n) { n = x } is y = 1", 10),
        ("c(n) { n = g + x } is g & x", 10),
        ("c(n) { n = x + x } is x", 11),
        ("c(n) { n = 0 * x } is x", 11),
        ("c(n) { n = 65537 * x } is x", 11),
        ("c(n) { n = x@[0:1] } is x", 11),
        ("c(n) { n@[0:32] = x } is x", 11),
        ("c(n) { n@[2:1] = x } is x", 11),
        ("c(n) { n@[0:7] = x, n = x } is x", 11),
        (
            "c(n) { n = 1 + 2 + 3 + 4 + 5 + 6 + 7 + 8 + 9 + 10 + 11 + 12 + 13 + 14 + 15 + x } is x",
            11,
        ),
        (
            "c(o1, o2, o3, o4, o5, o6, o7, o8, o9, o10, o11, o12, o13, o14, o15, o16, o17) { o1 + o2 + o3 + o4 +
             o5 + o6 + o7 + o8 = x, o9 + o10 + o11 + o12 + o13 + o14 + o15 + o16 + o17 = x } is x",
            11,
        ),
        ("c(t) { t = x + y } is x & y", 12),
        ("c(t) { t = x + x! } is x", 12),
        ("c(t) { t = x, x = y } is x & y", 13),
        ("c(t) { 2 * t = x } is x", 13),
        ("c(t) { t@[0:7] = x } is x", 13),
        ("c(v) { v@[0:3] = x!, v@[4:31] = 0 } is x", 13),
        ("c(n, m) { n + m = x } is x", 13),
        ("c(t) { t = 4 * L } is L: w = 1", 13),
        ("c() is epsilon", 14),
        (
            "c() is h; h; h; h; h; h; h; h; h; h; h; h; h; h; h; h; h",
            14,
        ),
        (
            "c() is x != 0; x != 0; x != 0; x != 0; x != 0; x != 0 | x = 0; x = 0; x = 0; x = 0; x = 0; x = 0",
            15,
        ),
    ];
    for (constructor, condition) in rows {
        let spec = format!(in rt.alloc(); "{CLASSES_AND_GROUP} constructors {constructor}")?;
        let told = format!(in rt.alloc();
            "s: error 8: declaration 4 does not meet condition {condition}\n"
        )?;
        let (found, out, notes) = answer(
            rt.alloc(),
            &["dis", "s", "m", "0"],
            &sound(spec.as_str(), "match", b"\0"),
        )?;
        assert_eq!(rt; found, Status::Refused(8));
        assert!(rt; out.bytes().is_empty());
        assert_eq!(rt; notes.bytes(), told.as_bytes());
    }
    Ok(())
}

#[test]
fn conditions_of_types(rt: HostRuntime) -> Result<(), Fail> {
    // What stands behind the classes and the group; the number of the declaration and the condition.
    let rows: [(&str, u64, u64); 11] = [
        ("c(x) : t is x c(y) : t is y", 5, 1),
        ("c(x) : t is x d(t, t) is t", 5, 1),
        ("c(x) : t is x d(t) : t is t", 5, 1),
        ("c(x) : t is x d(t) is t e(y) : t is y", 6, 1),
        ("c(x) : t is x d(a : t) is t", 5, 2),
        ("c(x) : t is x d(t!) is t", 5, 2),
        ("c() : t is x = 1 d() : t is w = 1 e(t, y) is t & y", 6, 6),
        ("c() : t is x = 1 ... d(t) is t", 4, 7),
        ("c(x) : t is x d(t) is t | t", 5, 8),
        ("c(x) : t is x d(t) is y = 1", 5, 10),
        ("c() : t is epsilon d(t) is t", 5, 14),
    ];
    for (constructors, number, condition) in rows {
        let spec = format!(in rt.alloc(); "{CLASSES_AND_GROUP} constructors {constructors}")?;
        let told = format!(in rt.alloc();
            "s: error 8: declaration {number} does not meet condition {condition}\n"
        )?;
        let (found, out, notes) = answer(
            rt.alloc(),
            &["dis", "s", "m", "0"],
            &sound(spec.as_str(), "match", b"\0"),
        )?;
        assert_eq!(rt; found, Status::Refused(8));
        assert!(rt; out.bytes().is_empty());
        assert_eq!(rt; notes.bytes(), told.as_bytes());
    }
    Ok(())
}

#[test]
fn accepted_constructors(rt: HostRuntime) -> Result<(), Fail> {
    for constructor in [
        "c(x, y!) : t is x & y",
        "c() : t is t: x = 1",
        "c() : t is epsilon",
        "c(t) : t { t = x } is x",
        "g(y) is g & y",
        "c(t) { t = 2 * x } is x",
        "c(n) { 65536 * x - 3 = n } is x",
        "c(v) { v@[0:3] = x, v@[4:7] = y, v@[8:31] = 0 } is x & y",
        "c(n) { n = L + 4 * x } is y = 1 ; L: x",
        "c(n) { n = x! } is x",
        "c(n, m) { n = x, m = x! } is x",
        "c() is b & q",
        "c(n, m) { n = x + y, m = x } is x & y",
        "c(n) { n = 1 + 2 + 3 + 4 + 5 + 6 + 7 + 8 + 9 + 10 + 11 + 12 + 13 + 14 + x } is x",
        "c(o1, o2, o3, o4, o5, o6, o7, o8, o9, o10, o11, o12, o13, o14, o15, o16) { o1 = x, o2 = x, o3 = x, o4 = x,
         o5 = x, o6 = x, o7 = x, o8 = x, o9 = x, o10 = x, o11 = x, o12 = x, o13 = x, o14 = x, o15 = x, o16 = x } is x",
        "c() is h; h; h; h; h; h; h; h; h; h; h; h; h; h; h; h",
        "c() is x != 0; x != 0; x != 0; x != 0; x != 0; x != 0",
        "c(x) : t is x d(y) : t is y e(t, a : t) is t ; a",
        "c() : t is epsilon d(x) : t is x e(t, y) is t ... & y",
        "c(x) : t is x d(t) : u is t ; w = 1 e(u) is u",
    ] {
        let spec = format!(in rt.alloc(); "{CLASSES_AND_GROUP} constructors {constructor}")?;
        let (found, out, notes) = answer(
            rt.alloc(),
            &["dis", "s", "m", "0"],
            &sound(spec.as_str(), "match case x = 2 => \"two\"", b"\x02"),
        )?;
        assert_eq!(rt; found, Status::Done);
        assert_eq!(rt; out.bytes(), b"00000000: 02  two\n".as_slice());
        assert!(rt; notes.bytes().is_empty());
    }
    Ok(())
}

#[test]
fn conditions_of_arms(rt: HostRuntime) -> Result<(), Fail> {
    // SPEC, MATCH; the number of the arm and the condition.
    let rows: [(&str, &str, u64, u64); 13] = [
        (BYTE, "case x = 1 => \"a\" else skip 0", 2, 14),
        (BYTE, "case x = 1 => \"a\" else skip 33", 2, 14),
        (BYTE, "else skip 33", 1, 14),
        (BYTE, "case epsilon => \"e\"", 1, 14),
        (BYTE, "case x = 1 ... => \"a\"", 1, 7),
        (BYTE, "case x | x = 1 => \"{x}\"", 1, 8),
        (BYTE, "case x & x => \"a\"", 1, 9),
        (BYTE, "case x = {1 2} => \"a\"", 1, 5),
        (BYTE_AND_LONG, "case x & v => \"a\"", 1, 6),
        (BYTE, "case (x ; x) ... & x => \"a\"", 1, 6),
        (BYTE, WEIGHT_ONE_TOO_HIGH, 1, 15),
        (BYTE, SUM_ONE_TOO_HIGH, 5, 15),
        (BYTE, "case x => \"{x}\" case here: x => \"{y}\"", 2, 16),
    ];
    for (spec, arms, number, condition) in rows {
        let matching = format!(in rt.alloc(); "match {arms}")?;
        let told = format!(in rt.alloc();
            "m: error 8: arm {number} does not meet condition {condition}\n"
        )?;
        let (found, out, notes) = answer(
            rt.alloc(),
            &["dis", "s", "m", "0"],
            &sound(spec, matching.as_str(), b"\0"),
        )?;
        assert_eq!(rt; found, Status::Refused(8));
        assert!(rt; out.bytes().is_empty());
        assert_eq!(rt; notes.bytes(), told.as_bytes());
    }
    Ok(())
}

#[test]
fn accepted_descriptions(rt: HostRuntime) -> Result<(), Fail> {
    let little = "fields of w (32 little)";
    for spec in [GROUP, little, BYTE_AND_HALF, SPARC, MIPS, I486] {
        let (found, out, notes) = answer(
            rt.alloc(),
            &["dis", "s", "m", "0"],
            &sound(spec, "match", b""),
        )?;
        assert_eq!(rt; found, Status::Done);
        assert!(rt; out.bytes().is_empty());
        assert!(rt; notes.bytes().is_empty());
    }
    Ok(())
}

#[test]
fn refused_texts(rt: HostRuntime) -> Result<(), Fail> {
    let deep = "match case (((((((((((((((((((((((((((((((((((((((((((((((((((((((((((((((((";
    // SPEC, MATCH; the number and the notes.
    let rows: [(&str, &str, u8, &str); 13] = [
        (
            "fields of w (32) x 0:7 $",
            "",
            3,
            "s: error 3: byte not allowed at 23\n",
        ),
        (
            SPEC,
            "match case x = 1 => \"one",
            4,
            "m: error 4: text not closed at 20\n",
        ),
        (
            "fields of w (32) x 0:4294967296",
            "",
            5,
            "s: error 5: number too large at 21\n",
        ),
        ("fields w", "$", 6, "s: error 6: syntax\n"),
        (SPEC, "", 6, "m: error 6: syntax\n"),
        (
            SPEC,
            deep,
            7,
            "m: error 7: brackets nested deeper than 64 at 75\n",
        ),
        (
            "fields of w (32) v 0:32",
            "$",
            8,
            "s: error 8: declaration 1 does not meet condition 3\n",
        ),
        (
            SPEC,
            "match case op = 256 => \"x\"",
            8,
            "m: error 8: arm 1 does not meet condition 4\n",
        ),
        (
            SPEC,
            "match case op = 1 => \"{v}\"",
            8,
            "m: error 8: arm 1 does not meet condition 16\n",
        ),
        (
            SPEC,
            "match case op => \"x\" case q => \"y\"",
            8,
            "m: error 8: arm 2 does not meet condition 2\n",
        ),
        (
            SPEC,
            "match case op = 1 | v => \"x\"",
            8,
            "m: error 8: arm 1 does not meet condition 8\n",
        ),
        (
            SPEC,
            "match case k(a) => \"x\"",
            8,
            "m: error 8: arm 1 does not meet condition 2\n",
        ),
        (
            "constructors c() is y = 1",
            "",
            8,
            "s: error 8: declaration 1 does not meet condition 2\n",
        ),
    ];
    for (spec, matching, number, told) in rows {
        let (found, out, notes) = answer(
            rt.alloc(),
            &["dis", "s", "m", "0"],
            &sound(spec, matching, b"\0"),
        )?;
        assert_eq!(rt; found, Status::Refused(number));
        assert!(rt; out.bytes().is_empty());
        assert_eq!(rt; notes.bytes(), told.as_bytes());
    }
    Ok(())
}

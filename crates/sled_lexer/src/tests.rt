// Worked rows.
use super::*;

const fn lexeme(kind: Kind, start: u32, end: u32) -> Lexeme {
    Lexeme {
        kind,
        span: Span { start, end },
    }
}

#[test]
fn cuts_each_lexeme_as_long_as_possible(rt: HostRuntime) -> Result<(), LexFault> {
    let rows: [(&[u8], &[Lexeme]); 9] = [
        (b"", &[]),
        (
            b"x!=3",
            &[
                lexeme(Kind::Word, 0, 1),
                lexeme(Kind::Mark, 1, 3),
                lexeme(Kind::Number, 3, 4),
            ],
        ),
        (
            b"0xg",
            &[lexeme(Kind::Number, 0, 1), lexeme(Kind::Word, 1, 3)],
        ),
        (b"0xfF", &[lexeme(Kind::Number, 0, 4)]),
        (
            b"a_b _a",
            &[
                lexeme(Kind::Word, 0, 3),
                lexeme(Kind::Mark, 4, 5),
                lexeme(Kind::Word, 5, 6),
            ],
        ),
        (
            b"p ...;",
            &[
                lexeme(Kind::Word, 0, 1),
                lexeme(Kind::Mark, 2, 5),
                lexeme(Kind::Mark, 5, 6),
            ],
        ),
        (
            b"=>=<=!=",
            &[
                lexeme(Kind::Mark, 0, 2),
                lexeme(Kind::Mark, 2, 3),
                lexeme(Kind::Mark, 3, 5),
                lexeme(Kind::Mark, 5, 7),
            ],
        ),
        (
            b"\"a # b\" # \"c\n1 # the end",
            &[lexeme(Kind::Text, 0, 7), lexeme(Kind::Number, 13, 14)],
        ),
        (b"4294967295", &[lexeme(Kind::Number, 0, 10)]),
    ];
    for (text, want) in rows {
        assert!(rt; text.len() <= 100);
        let found = lex(rt.alloc(), text)?;
        assert_eq!(rt; found.as_slice(), want);
    }
    Ok(())
}

#[test]
fn refuses_at_the_place(rt: HostRuntime) {
    let rows: [(&[u8], LexFault); 9] = [
        (b"fields of w (32) x 0:7 $", LexFault::BadByte(23)),
        (b"a .. b", LexFault::BadByte(2)),
        (b"match case x = 1 => \"one", LexFault::OpenText(20)),
        (b"\"one\n\"", LexFault::OpenText(0)),
        (b"x \"a\tb\"", LexFault::BadByte(4)),
        (b"x \"a\xc8", LexFault::BadByte(4)),
        (
            b"fields of w (32) x 0:4294967296",
            LexFault::NumberTooBig(21),
        ),
        (
            b"x 0x100000000000000000000000000000000",
            LexFault::NumberTooBig(2),
        ),
        (b"99999999999 $", LexFault::NumberTooBig(0)),
    ];
    for (text, want) in rows {
        assert!(rt; text.len() <= 100);
        assert_eq!(rt; lex(rt.alloc(), text).err(), Some(want));
    }
}

#[test]
#[tactic(auto, unfolding(crate::specs::Spelled::number_value))]
fn reads_numbers(rt: HostRuntime) {
    assert_eq!(rt; number_value(b"0"), 0);
    assert_eq!(rt; number_value(b"007"), 7);
    assert_eq!(rt; number_value(b"4294967295"), 4_294_967_295);
    assert_eq!(rt; parse_number(b"0x1F"), Some(31));
    assert_eq!(rt; parse_number(b"007"), Some(7));
    assert_eq!(rt; parse_number(b"4294967296"), None);
    assert_eq!(rt; parse_number(b"0x"), None);
    assert_eq!(rt; parse_number(b""), None);
    assert_eq!(rt; number_value(b"0x0"), 0);
    assert_eq!(rt; number_value(b"0xDeadBeef"), 3_735_928_559);
}

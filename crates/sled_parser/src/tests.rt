// Texts, and what they are parsed as.
use crate::tree::{Decl, MatchTree};
use crate::{SyntaxFault, parse_match, parse_spec};
use sled_lexer::{LexFault, lex};
use std::alloc::Global;
use std::process::Abort;
use std::test::Fail;

fn parsed(
    rt: &impl Abort,
    alloc: Global,
    text: &str,
) -> Result<Result<MatchTree, SyntaxFault>, LexFault> {
    let text = text.as_bytes();
    assert!(rt; text.len() <= 1_048_576);
    let lexemes = lex(alloc, text)?;
    Ok(parse_match(alloc, text, lexemes.as_slice()))
}

#[test]
fn statements(rt: HostRuntime) -> Result<(), Fail> {
    for (text, want) in [
        (
            "match",
            "MatchTree { arms: Listed(Items { items: [] }), skip: None }",
        ),
        (
            "match all else skip 3",
            "MatchTree { arms: All, skip: Some(Items { items: [51] }) }",
        ),
        (
            "match case x => \"\" case epsilon => \"\"",
            "MatchTree { arms: Listed(Items { items: [\
            ArmTree { pattern: Word(Items { items: [120] }), action: Items { items: [34, 34] } }, \
            ArmTree { pattern: Empty, action: Items { items: [34, 34] } }] }), skip: None }",
        ),
        (
            "match case (x = 1 | y) ; z ... => \"a {x}\"",
            "MatchTree { arms: Listed(Items { items: [ArmTree { pattern: Chain(Items { items: [\
            Group(Boxed { inner: Either(Items { items: [\
            Limit { field: Items { items: [120] }, relation: Equal, value: One(Items { items: [49] }) }, \
            Word(Items { items: [121] })] }) }), \
            Loose(Boxed { inner: Word(Items { items: [122] }) })] }), \
            action: Items { items: [34, 97, 32, 123, 120, 125, 34] } }] }), skip: None }",
        ),
    ] {
        let tree = parsed(&rt, rt.alloc(), text)??;
        assert_eq!(rt; format!(in rt.alloc(); "{tree:?}")?.as_str(), want);
    }
    Ok(())
}

#[test]
fn refusals(rt: HostRuntime) -> Result<(), Fail> {
    for (text, want) in [
        ("", SyntaxFault::Syntax),
        // a reserved word where a name stands
        ("match case version => \"a\"", SyntaxFault::Syntax),
        // a mark where a Text stands
        ("match case x => ;", SyntaxFault::Syntax),
        ("match case x =>", SyntaxFault::Syntax),
        ("match else skip", SyntaxFault::Syntax),
        ("match all all", SyntaxFault::Syntax),
        (
            "match case (((((((((((((((((((((((((((((((((((((((((((((((((((((((((((((((((",
            SyntaxFault::Nesting(75),
        ),
    ] {
        assert_eq!(rt; parsed(&rt, rt.alloc(), text)?.err(), Some(want), "{text}");
    }
    Ok(())
}

fn described(
    rt: &impl Abort,
    alloc: Global,
    text: &str,
) -> Result<Result<Vec<Decl>, SyntaxFault>, LexFault> {
    let text = text.as_bytes();
    assert!(rt; text.len() <= 1_048_576);
    let lexemes = lex(alloc, text)?;
    Ok(parse_spec(alloc, text, lexemes.as_slice()))
}

#[test]
fn descriptions(rt: HostRuntime) -> Result<(), Fail> {
    for (text, want) in [
        ("", "[]"),
        (
            "fields of o (8) x 0:3 y 4:7 fields of p (16 little)",
            "[Class { name: Items { items: [111] }, width: Items { items: [56] }, little: false, \
            fields: Items { items: [FieldTree { name: Items { items: [120] }, lo: Items { items: [48] }, \
            hi: Items { items: [51] } }, FieldTree { name: Items { items: [121] }, \
            lo: Items { items: [52] }, hi: Items { items: [55] } }] } }, \
            Class { name: Items { items: [112] }, width: Items { items: [49, 54] }, little: true, \
            fields: Items { items: [] } }]",
        ),
        (
            "patterns p is x g [m _ n] is y h [] is z",
            "[Heading(Patterns), Definition { name: Items { items: [112] }, items: None, \
            pattern: Word(Items { items: [120] }) }, Definition { name: Items { items: [103] }, \
            items: Some(Items { items: [Name(Items { items: [109] }), Skip, \
            Name(Items { items: [110] })] }), pattern: Word(Items { items: [121] }) }, \
            Definition { name: Items { items: [104] }, items: Some(Items { items: [] }), \
            pattern: Word(Items { items: [122] }) }]",
        ),
        (
            "constructors c(r, i!, s : v) : t {i = 2 * j@[0:3] - k! + 7, -1 = w} is x d() is y",
            "[Heading(Constructors), ConstructorDecl { opcode: Items { items: [99] }, \
            operands: Items { items: [Word(Items { items: [114] }), Extended(Items { items: [105] }), \
            Typed { name: Items { items: [115] }, result: Items { items: [118] } }] }, \
            result: Some(Items { items: [116] }), \
            equations: Items { items: [EqTree { left: SumTree { terms: Items { items: [Place { minus: false, \
            coefficient: None, place: Word(Items { items: [105] }) }] } }, \
            right: SumTree { terms: Items { items: [Place { minus: false, \
            coefficient: Some(Items { items: [50] }), place: Slice { word: Items { items: [106] }, \
            lo: Items { items: [48] }, hi: Items { items: [51] } } }, Place { minus: true, \
            coefficient: None, place: Extended(Items { items: [107] }) }, Number { minus: false, \
            number: Items { items: [55] } }] } } }, \
            EqTree { left: SumTree { terms: Items { items: [Number { minus: true, \
            number: Items { items: [49] } }] } }, \
            right: SumTree { terms: Items { items: [Place { minus: false, coefficient: None, \
            place: Word(Items { items: [119] }) }] } } }] }, body: Word(Items { items: [120] }) }, \
            ConstructorDecl { opcode: Items { items: [100] }, operands: Items { items: [] }, result: None, \
            equations: Items { items: [] }, body: Word(Items { items: [121] }) }]",
        ),
    ] {
        let declarations = described(&rt, rt.alloc(), text)??;
        assert_eq!(rt; format!(in rt.alloc(); "{declarations:?}")?.as_str(), want);
    }
    Ok(())
}

#[test]
fn no_descriptions(rt: HostRuntime) -> Result<(), Fail> {
    for text in [
        // a field before the closing bracket
        "fields of b (8 x 0:7)",
        // a definition before any heading, or behind the fields of a class
        "x is epsilon",
        "patterns fields of b (8) x is epsilon",
        "constructors c( is x",
        "constructors c() { i } is x",
    ] {
        assert_eq!(rt;
            described(&rt, rt.alloc(), text)?.err(),
            Some(SyntaxFault::Syntax),
            "{text}"
        );
    }
    Ok(())
}

ghost use Rattle.std.specs.Prelude.{◌≡◌, ◌∷◌, [], IfOk, IfSome};
ghost use Rattle.sled_model.specs.declared.pattern.Pattern.TheVariants.{Apply};
ghost use Rattle.sled_model.specs.declared.statement.Piece.TheVariants.{Words, Bound};
ghost use Rattle.sled_model.specs.PlainStatements.{IsMatchLength};
ghost use Rattle.disassembler.specs.Example.{description as description_of, tokens as tokens_of, upper_half as upper_half_of, around as around_of, z_is as z_is_of, inner_arm as inner_arm_of, outer_arm as outer_arm_of, label_arm as label_arm_of, three_arms as statement_of};

use crate::{one_taking, prepare, taking_of};
use image_listing::{ListFault, Listed, list};
use sled_base::{MemSink, MemSource, NoMemory};
use sled_model::{
    Argument, Arm, Constructor, ConstructorId, ConstructorNames, Name, OperandKind, Pattern, Piece,
    Relation, Spec, Statement, TypeId,
};
use sqlite_items::{Boxed, Items};
use std::alloc::Global;
use std::test::Fail;
use token_bits::{Class, ClassId, Field, FieldId, Order, Tokens};

fn name(alloc: Global, text: &[u8]) -> Result<Name, NoMemory>
    ensures { IfOk result (λ name. name ≡ text.now) }
{
    Ok(Items::from_slice(alloc, text)?)
}

/// `fields of b (8) y 4:7 z 0:3`
fn tokens(alloc: Global) -> Result<Tokens, NoMemory>
    ensures { IfOk result (λ tokens. tokens ≡ tokens_of) }
{
    let mut classes = Items::new(alloc);
    classes.push(Class {
        width: 8,
        order: Order::Big,
    })?;
    let mut fields = Items::new(alloc);
    fields.push(Field {
        class: ClassId(0),
        lo: 4,
        hi: 7,
    })?;
    fields.push(Field {
        class: ClassId(0),
        lo: 0,
        hi: 3,
    })?;
    Ok(Tokens { classes, fields })
}

/// `e(y) : t is y`
fn upper_half(alloc: Global) -> Result<Constructor, NoMemory>
    ensures { IfOk result (λ c. c ≡ upper_half_of) }
{
    let mut operands = Items::new(alloc);
    operands.push(OperandKind::Plain(FieldId(0)))?;
    let mut names = Items::new(alloc);
    names.push(name(alloc, b"y")?)?;
    Ok(Constructor {
        name: name(alloc, b"e")?,
        result: Some(TypeId(0)),
        operands,
        names,
        equations: Items::new(alloc),
        body: Pattern::Bind(FieldId(0)),
    })
}

/// `f(x : t) is x`
fn around(alloc: Global) -> Result<Constructor, NoMemory>
    ensures { IfOk result (λ c. c ≡ around_of) }
{
    let mut operands = Items::new(alloc);
    operands.push(OperandKind::Typed(TypeId(0)))?;
    let mut names = Items::new(alloc);
    names.push(name(alloc, b"x")?)?;
    Ok(Constructor {
        name: name(alloc, b"f")?,
        result: None,
        operands,
        names,
        equations: Items::new(alloc),
        body: Pattern::Operand(0),
    })
}

/// The names of a description, and what it declares.
fn description(alloc: Global) -> Result<Spec, NoMemory>
    ensures { IfOk result (λ spec. spec ≡ description_of) }
{
    let mut class_names = Items::new(alloc);
    class_names.push(name(alloc, b"b")?)?;
    let mut field_names = Items::new(alloc);
    field_names.push(name(alloc, b"y")?)?;
    field_names.push(name(alloc, b"z")?)?;
    let mut type_names = Items::new(alloc);
    type_names.push(name(alloc, b"t")?)?;
    let mut constructors = Items::new(alloc);
    constructors.push(upper_half(alloc)?)?;
    constructors.push(around(alloc)?)?;
    let mut constructor_names = ConstructorNames::new(alloc);
    constructor_names.add(b"e")?;
    constructor_names.add(b"f")?;
    Ok(Spec {
        tokens: tokens(alloc)?,
        class_names,
        field_names,
        type_names,
        constructors,
        constructor_names,
    })
}

fn z_is(value: u32) -> Pattern
    ensures { result ≡ z_is_of value }
{
    Pattern::Limit {
        field: FieldId(1),
        relation: Relation::Equal,
        value,
    }
}

/// The constructor of this number, applied to one argument.
fn applied(alloc: Global, number: u32, argument: Argument) -> Result<Pattern, NoMemory>
    ensures { IfOk result (λ p. p ≡ Apply (record { 0 = number }) (argument ∷ [])) }
{
    let mut arguments = Items::new(alloc);
    arguments.push(argument)?;
    Ok(Pattern::Apply {
        constructor: ConstructorId(number),
        arguments,
    })
}

/// The words, and then the value of name 0.
fn words_and_value(alloc: Global, words: &[u8]) -> Result<Items<Piece>, NoMemory>
    ensures { IfOk result (λ pieces. pieces ≡ Words words.now ∷ Bound 0 ∷ []) }
{
    let mut pieces = Items::new(alloc);
    pieces.push(Piece::Words(name(alloc, words)?))?;
    pieces.push(Piece::Bound(0))?;
    Ok(pieces)
}

/// `z = 1 & f(e(v)) => "one {v}"`
fn inner_arm(alloc: Global) -> Result<Arm, NoMemory>
    ensures { IfOk result (λ arm. arm ≡ inner_arm_of) }
{
    let inner = applied(alloc, 0, Argument::Name(0))?;
    let mut terms = Items::new(alloc);
    terms.push(z_is(1))?;
    terms.push(applied(alloc, 1, Argument::Inner(Boxed::new(alloc, inner)?))?)?;
    let mut names = Items::new(alloc);
    names.push(name(alloc, b"v")?)?;
    Ok(Arm {
        pattern: Pattern::Both(terms),
        names,
        action: words_and_value(alloc, b"one ")?,
    })
}

/// `z = 2 & f(v) => "two {v}"`
fn outer_arm(alloc: Global) -> Result<Arm, NoMemory>
    ensures { IfOk result (λ arm. arm ≡ outer_arm_of) }
{
    let mut terms = Items::new(alloc);
    terms.push(z_is(2))?;
    terms.push(applied(alloc, 1, Argument::Name(0))?)?;
    let mut names = Items::new(alloc);
    names.push(name(alloc, b"v")?)?;
    Ok(Arm {
        pattern: Pattern::Both(terms),
        names,
        action: words_and_value(alloc, b"two ")?,
    })
}

/// `z = 3 ; here: y => "three {here} {y}"`
fn label_arm(alloc: Global) -> Result<Arm, NoMemory>
    ensures { IfOk result (λ arm. arm ≡ label_arm_of) }
{
    let mut parts = Items::new(alloc);
    parts.push(z_is(3))?;
    let bound = Pattern::Bind(FieldId(0));
    parts.push(Pattern::Label(0, Boxed::new(alloc, bound)?))?;
    let mut names = Items::new(alloc);
    names.push(name(alloc, b"here")?)?;
    names.push(name(alloc, b"y")?)?;
    let mut action = words_and_value(alloc, b"three ")?;
    action.push(Piece::Words(name(alloc, b" ")?))?;
    action.push(Piece::Bound(1))?;
    Ok(Arm {
        pattern: Pattern::Chain(parts),
        names,
        action,
    })
}

/// The three arms, and so many bytes to skip.
fn three_arms(alloc: Global, skip: Option<u8>) -> Result<Statement, NoMemory>
    ensures { IfOk result (λ statement. statement ≡ statement_of skip) }
{
    let mut arms = Items::new(alloc);
    arms.push(inner_arm(alloc)?)?;
    arms.push(outer_arm(alloc)?)?;
    arms.push(label_arm(alloc)?)?;
    Ok(Statement { arms, skip })
}

/// What `list` of the statement answers to the bytes from address 16 on, and what it writes.
fn run(
    alloc: Global,
    skip: Option<u8>,
    bytes: &[u8],
) -> Result<(Result<Listed, ListFault>, Vec<u8>), NoMemory>
    requires { IfSome skip IsMatchLength }
{
    let spec = description(alloc)?;
    let statement = three_arms(alloc, skip)?;
    let mut source = MemSource::new(alloc, bytes, &[])?;
    let mut sink = MemSink::new(alloc, 256, &[])?;
    let mut decoder = prepare(alloc, &spec, &statement)?;
    let answer = list(alloc, &mut decoder, 16, &mut source, &mut sink);
    Ok((answer, sink.bytes().to_vec(alloc)?))
}

#[test]
fn applications(rt: HostRuntime) -> Result<(), Fail> {
    let (answer, text) = run(rt.alloc(), None, &[0x31, 0x52])?;
    assert_eq!(rt; answer, Ok(Listed { places: 2, end: 18 }));
    let lines = b"00000010: 31  one 3\n00000011: 52  two e(5)\n";
    assert_eq!(rt; text.as_slice(), lines.as_slice());
    Ok(())
}

#[test]
fn a_label_and_skips(rt: HostRuntime) -> Result<(), Fail> {
    let (answer, text) = run(rt.alloc(), Some(2), &[0x03, 0x70, 0x04, 0x01, 0x05])?;
    assert_eq!(rt; answer, Ok(Listed { places: 3, end: 21 }));
    let lines = b"00000010: 0370  three 17 7\n00000012: 0401  .skip 2\n00000014: 05  .skip 1\n";
    assert_eq!(rt; text.as_slice(), lines.as_slice());
    Ok(())
}

#[test]
fn a_refused_place(rt: HostRuntime) -> Result<(), Fail> {
    let (answer, text) = run(rt.alloc(), None, &[0x03, 0x70, 0x04])?;
    assert_eq!(rt; answer, Err(ListFault::NoMatch(18)));
    assert_eq!(rt; text.as_slice(), b"00000010: 0370  three 17 7\n".as_slice());
    Ok(())
}

#[test]
fn laws(_rt: HostRuntime) {
    one_taking();
    taking_of();
}

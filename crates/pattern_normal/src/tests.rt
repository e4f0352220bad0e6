// Cases of a worked pattern, and measures of patterns and of a constructor.
ghost use Rattle.std.specs.Prelude.{◌≡◌, [], ◌∷◌, map, IfOk};
ghost use Rattle.token_bits.specs.Tokens.{AreTokens, token_len};
ghost use Rattle.sled_model.specs.declared.pattern.Relation.TheVariants.{Equal, Below};
ghost use Rattle.sled_model.specs.Leaves.{IsNoApplication, AllLeaves};
ghost use Rattle.pattern_normal.specs.Operands.{ApplyNothing};

use crate::{body_size, body_weight, cases_of, size, size_over, weight, weight_over};
use sled_base::NoMemory;
use sled_model::{
    Argument, Constructor, ConstructorId, ConstructorNames, KindList, OperandKind, Pattern,
    RawEntry, Relation, Spec, TypeId,
};
use sqlite_items::{Boxed, Items};
use std::alloc::Global;
use std::test::Fail;
use token_bits::{Class, Field, FieldId, Order, Tokens};

/// Fields 0, the low half, and 1, the high half, of a class of 8 bits.
fn spec(alloc: Global) -> Result<Spec, NoMemory>
    ensures sound { IfOk result (λ spec. AreTokens spec.tokens) }
    ensures low { IfOk result (λ spec. token_len spec.tokens (record { 0 = 0 }) ≡ 1) }
    ensures high { IfOk result (λ spec. token_len spec.tokens (record { 0 = 1 }) ≡ 1) }
    ensures nothing { IfOk result (λ spec. spec.constructors ≡ []) }
{
    let mut tokens = Tokens::new(alloc);
    let class = tokens.add_class(Class {
        width: 8,
        order: Order::Little,
    })?;
    tokens.add_field(Field {
        class,
        lo: 0,
        hi: 3,
    })?;
    tokens.add_field(Field {
        class,
        lo: 4,
        hi: 7,
    })?;
    Ok(Spec {
        tokens,
        class_names: Items::new(alloc),
        field_names: Items::new(alloc),
        type_names: Items::new(alloc),
        constructors: Items::new(alloc),
        constructor_names: ConstructorNames::new(alloc),
    })
}

fn low(relation: Relation, value: u32) -> Pattern
    ensures { result ≡ Pattern.Limit (record { 0 = 0 }) relation value }
{
    Pattern::Limit {
        field: FieldId(0),
        relation,
        value,
    }
}

fn two(alloc: Global, first: Pattern, second: Pattern) -> Result<Items<Pattern>, NoMemory>
    ensures { IfOk result (λ parts. parts ≡ first ∷ second ∷ []) }
{
    let mut parts = Items::new(alloc);
    parts.push(first)?;
    parts.push(second)?;
    Ok(parts)
}

/// `here: (low < 5 & high) ; (low = 1 | low)`
fn pattern(alloc: Global) -> Result<Pattern, NoMemory>
    ensures { IfOk result (λ p. p ≡ Pattern.Chain (Pattern.Label 7 (Pattern.Both (Pattern.Limit (record { 0 = 0 }) Below 5 ∷ Pattern.Bind (record { 0 = 1 }) ∷ []))
        ∷ Pattern.Either (Pattern.Limit (record { 0 = 0 }) Equal 1 ∷ Pattern.Bind (record { 0 = 0 }) ∷ []) ∷ [])) }
{
    let both = two(alloc, low(Relation::Below, 5), Pattern::Bind(FieldId(1)))?;
    let either = two(alloc, low(Relation::Equal, 1), Pattern::Bind(FieldId(0)))?;
    let labelled = Pattern::Label(7, Boxed::new(alloc, Pattern::Both(both))?);
    Ok(Pattern::Chain(two(alloc, labelled, Pattern::Either(either))?))
}

fn constructor(
    alloc: Global,
    made: Option<TypeId>,
    operands: KindList,
    body: Pattern,
) -> Constructor
    ensures { result.body ≡ body }
{
    Constructor {
        name: Items::new(alloc),
        result: made,
        operands,
        names: Items::new(alloc),
        equations: Items::new(alloc),
        body,
    }
}

/// The type 0 is made by the bodies `low < 7` and `low < 3`, of weights 3 and 2.
fn typed_spec(alloc: Global) -> Result<Spec, NoMemory>
    ensures sound { IfOk result (λ spec. AreTokens spec.tokens) }
    ensures plain { IfOk result (λ spec. ApplyNothing spec.constructors) }
{
    let mut spec = spec(alloc)?;
    let three = low(Relation::Below, 7);
    let two = low(Relation::Below, 3);
    let made = Some(TypeId(0));
    spec.constructors
        .push(constructor(alloc, made, Items::new(alloc), three))?;
    spec.constructors
        .push(constructor(alloc, made, Items::new(alloc), two))?;
    Ok(spec)
}

/// `low < 7 ; t`, with the operand t of type 0, and a whole number.
fn instruction(alloc: Global) -> Result<Constructor, NoMemory>
    ensures { IfOk result (λ c. AllLeaves IsNoApplication c.body) }
{
    let mut operands = Items::new(alloc);
    operands.push(OperandKind::Typed(TypeId(0)))?;
    operands.push(OperandKind::Whole)?;
    let body = Pattern::Chain(two(alloc, low(Relation::Below, 7), Pattern::Operand(0))?);
    Ok(constructor(alloc, None, operands, body))
}

/// A number for each entry: what it is, its value and its offset, each a decimal digit.
fn numbers(alloc: Global, entries: &[RawEntry]) -> Result<Vec<u64>, NoMemory> {
    let mut numbers = Vec::new(alloc);
    for entry in entries {
        let number = match entry {
            RawEntry::Value { field, value, at } => {
                100 * u64::from(field.0) + 10 * u64::from(*value) + u64::from(*at)
            }
            RawEntry::Mark { label, at } => 100 * u64::from(*label) + u64::from(*at),
            RawEntry::Choice { .. } => 1000,
        };
        numbers.push(number)?;
    }
    Ok(numbers)
}

/// The length and the entries of each result that the cases give on the window.
fn told(alloc: Global, window: &[u8]) -> Result<Vec<(u8, Vec<u64>)>, NoMemory> {
    let spec = spec(alloc)?;
    let pattern = pattern(alloc)?;
    let cases = cases_of(alloc, &spec, &pattern)?;
    let mut told = Vec::new(alloc);
    for case in cases.as_slice() {
        if case.bits.meets(window) {
            let raw = case.bind.read(alloc, &spec, window)?;
            told.push((case.bits.len, numbers(alloc, raw.entries.as_slice())?))?;
        }
    }
    Ok(told)
}

#[test]
fn results_in_order(rt: HostRuntime) -> Result<(), Fail> {
    let both = told(rt.alloc(), &[0x24, 0x31, 0xFF])?;
    assert_eq!(rt; both.len(), 2);
    assert_eq!(rt; both[0].0, 2);
    assert_eq!(rt; both[0].1.as_slice(), [700, 120].as_slice());
    assert_eq!(rt; both[1].1.as_slice(), [700, 120, 11].as_slice());
    let one = told(rt.alloc(), &[0x93, 0x08])?;
    assert_eq!(rt; one.len(), 1);
    assert_eq!(rt; one[0].1.as_slice(), [700, 190, 81].as_slice());
    assert_eq!(rt; told(rt.alloc(), &[0x25, 0x31])?.len(), 0);
    assert_eq!(rt; told(rt.alloc(), &[0x24])?.len(), 0);
    Ok(())
}

#[test]
fn weight_and_size(rt: HostRuntime) -> Result<(), Fail> {
    let spec = spec(rt.alloc())?;
    let pattern = pattern(rt.alloc())?;
    assert_eq!(rt; weight(&spec, &pattern), 4);
    assert_eq!(rt; size(&spec, &pattern), 3);
    assert_eq!(rt; weight(&spec, &low(Relation::Differs, 3)), 4);
    assert_eq!(rt; cases_of(rt.alloc(), &spec, &pattern)?.len(), 4);
    Ok(())
}

#[test]
fn operands(rt: HostRuntime) -> Result<(), Fail> {
    let spec = typed_spec(rt.alloc())?;
    let instruction = instruction(rt.alloc())?;
    assert_eq!(rt; body_weight(&spec, &instruction), 15);
    assert_eq!(rt; body_size(&spec, &instruction), 3);
    assert_eq!(rt; weight_over(&spec.tokens, &[5], &instruction.body), 15);
    assert_eq!(rt; size_over(&[5], &instruction.body), 5);
    Ok(())
}

/// A field `x` of all bits of a class of 8 bits.
fn byte_spec(alloc: Global) -> Result<Spec, NoMemory>
    ensures sound { IfOk result (λ spec. AreTokens spec.tokens) }
    ensures byte { IfOk result (λ spec. token_len spec.tokens (record { 0 = 0 }) ≡ 1) }
    ensures nothing { IfOk result (λ spec. spec.constructors ≡ []) }
{
    let mut tokens = Tokens::new(alloc);
    let class = tokens.add_class(Class {
        width: 8,
        order: Order::Little,
    })?;
    tokens.add_field(Field {
        class,
        lo: 0,
        hi: 7,
    })?;
    Ok(Spec {
        tokens,
        class_names: Items::new(alloc),
        field_names: Items::new(alloc),
        type_names: Items::new(alloc),
        constructors: Items::new(alloc),
        constructor_names: ConstructorNames::new(alloc),
    })
}

/// The type 0 is made by `low`, which is `x < 16`, and by `five`, which is `x = 5`. `ins(t)` is `t`.
fn chosen_spec(alloc: Global) -> Result<Spec, NoMemory>
    ensures sound { IfOk result (λ spec. AreTokens spec.tokens) }
    ensures byte { IfOk result (λ spec. token_len spec.tokens (record { 0 = 0 }) ≡ 1) }
    ensures bodies { IfOk result (λ spec. map (λ c. c.body) spec.constructors ≡ Pattern.Limit (record { 0 = 0 }) Below 16 ∷ Pattern.Limit (record { 0 = 0 }) Equal 5 ∷ Pattern.Operand 0 ∷ []) }
{
    let mut spec = byte_spec(alloc)?;
    let made = Some(TypeId(0));
    let mut operands = Items::new(alloc);
    operands.push(OperandKind::Typed(TypeId(0)))?;
    spec.constructors.push(constructor(alloc, made, Items::new(alloc), low(Relation::Below, 16)))?;
    spec.constructors.push(constructor(alloc, made, Items::new(alloc), low(Relation::Equal, 5)))?;
    spec.constructors
        .push(constructor(alloc, None, operands, Pattern::Operand(0)))?;
    Ok(spec)
}

/// `ins(argument)`
fn applied(alloc: Global, argument: Argument) -> Result<Pattern, NoMemory>
    ensures { IfOk result (λ p. p ≡ Pattern.Apply (record { 0 = 2 }) (argument ∷ [])) }
{
    let mut arguments = Items::new(alloc);
    arguments.push(argument)?;
    Ok(Pattern::Apply {
        constructor: ConstructorId(2),
        arguments,
    })
}

/// `five()`
fn five(alloc: Global) -> Result<Argument, NoMemory> {
    let five = Pattern::Apply {
        constructor: ConstructorId(1),
        arguments: Items::new(alloc),
    };
    Ok(Argument::Inner(Boxed::new(alloc, five)?))
}

/// The number of the constructor that the first entry says was taken, or 9 where it says of none.
fn taken(entries: &[RawEntry]) -> u32 {
    match entries.first() {
        Some(RawEntry::Choice { constructor, .. }) => constructor.0,
        _ => 9,
    }
}

/// The same inside the first entry.
fn taken_inside(entries: &[RawEntry]) -> u32 {
    match entries.first() {
        Some(RawEntry::Choice { inner, .. }) => taken(inner.entries.as_slice()),
        _ => 9,
    }
}

/// The number of the constructor that each result of `ins(argument)` on the window takes for the operand.
fn choices(alloc: Global, argument: Argument, window: &[u8]) -> Result<Vec<u32>, NoMemory> {
    let spec = chosen_spec(alloc)?;
    let pattern = applied(alloc, argument)?;
    let cases = cases_of(alloc, &spec, &pattern)?;
    let mut numbers = Vec::new(alloc);
    for case in cases.as_slice() {
        if case.bits.meets(window) {
            let raw = case.bind.read(alloc, &spec, window)?;
            numbers.push(taken_inside(raw.entries.as_slice()))?;
        }
    }
    Ok(numbers)
}

#[test]
fn applications(rt: HostRuntime) -> Result<(), Fail> {
    let open = choices(rt.alloc(), Argument::Any, &[0x05])?;
    assert_eq!(rt; open.as_slice(), [0, 1].as_slice());
    let five = five(rt.alloc())?;
    let only = choices(rt.alloc(), five, &[0x05])?;
    assert_eq!(rt; only.as_slice(), [1].as_slice());
    Ok(())
}

ghost use Rattle.std.specs.Prelude.{IfOk, ◌≤◌, ◌<◌, ◌≡◌, [], ◌∷◌};
ghost use Rattle.token_bits.specs.Tokens.{AreTokens};
ghost use Rattle.std.specs.Prelude.{None, ◌^◌, length};
ghost use Rattle.sled_model.specs.declared.pattern.Pattern.TheVariants.{Empty};

use crate::{
    Argument, Arm, Constructor, ConstructorId, ConstructorNames, Instance, Name, Operand,
    OperandKind, Pattern, RawEntry, Relation, Spec, Statement, TypeId, first, is_named, name_value,
    results,
};
use sled_base::NoMemory;
use sqlite_items::{Boxed, Items};
use std::alloc::Global;
use std::test::Fail;
use token_bits::{Class, ClassId, Field, FieldId, Order, Tokens};

/// Fields 0, with bits lo to hi, and 1, with bits 0 to 15, of a class of 32 bits.
fn tokens(alloc: Global, order: Order, lo: u8, hi: u8) -> Result<Tokens, NoMemory>
    requires place { lo ≤ hi }
    requires within { hi < 32 }
    ensures { IfOk result AreTokens }
{
    let mut tokens = Tokens::new(alloc);
    let class = tokens.add_class(Class { width: 32, order })?;
    tokens.add_field(Field { class, lo, hi })?;
    tokens.add_field(Field {
        class,
        lo: 0,
        hi: 15,
    })?;
    Ok(tokens)
}

/// The relation `field 0 = value` and the bare field 1.
fn equal_and_bare(alloc: Global, value: u32) -> Result<Pattern, NoMemory> {
    let mut terms = Items::new(alloc);
    terms.push(Pattern::Limit {
        field: FieldId(0),
        relation: Relation::Equal,
        value,
    })?;
    terms.push(Pattern::Bind(FieldId(1)))?;
    Ok(Pattern::Both(terms))
}

#[test]
fn one_result_of_a_conjunction(rt: HostRuntime) -> Result<(), Fail> {
    let spec = description(rt.alloc(), tokens(rt.alloc(), Order::Big, 24, 31)?)?;
    let pattern = equal_and_bare(rt.alloc(), 1)?;
    let found = results(rt.alloc(), &spec, &[], &pattern, &[1, 0, 0, 5], 0)?;
    assert_eq!(rt; found.len(), 1);
    let first = found.get(0).ok_or("no result")?;
    assert_eq!(rt; (first.len, first.loose, first.binds.len()), (4, false, 1));
    assert!(rt;
        matches!(
            first.binds.get(0),
            Some(RawEntry::Value {
                field: FieldId(1),
                value: 5,
                at: 0
            })
        )
    );
    Ok(())
}

/// `field 0 = 1 ; here: field 1`
fn chain(alloc: Global) -> Result<Pattern, NoMemory> {
    let mut parts = Items::new(alloc);
    parts.push(Pattern::Limit {
        field: FieldId(0),
        relation: Relation::Equal,
        value: 1,
    })?;
    parts.push(Pattern::Label(0, Boxed::new(alloc, Pattern::Bind(FieldId(1)))?))?;
    Ok(Pattern::Chain(parts))
}

#[test]
fn a_label_behind_a_relation(rt: HostRuntime) -> Result<(), Fail> {
    let spec = description(rt.alloc(), tokens(rt.alloc(), Order::Big, 0, 7)?)?;
    let pattern = chain(rt.alloc())?.copy(rt.alloc())?;
    let window = [0, 0, 0, 1, 0, 0, 2, 0, 7];
    let found = results(rt.alloc(), &spec, &[], &pattern, &window, 0)?;
    assert_eq!(rt; found.len(), 1);
    let first = found.get(0).ok_or("no result")?;
    assert_eq!(rt; first.len, 8);
    assert!(rt; matches!(first.binds.get(0), Some(RawEntry::Mark { label: 0, at: 4 })));
    assert!(rt;
        matches!(
            first.binds.get(1),
            Some(RawEntry::Value {
                value: 512,
                at: 4,
                ..
            })
        )
    );
    Ok(())
}

/// A description with these tokens, whose field 1 is named `lo`.
fn description(alloc: Global, tokens: Tokens) -> Result<Spec, NoMemory>
    ensures tokens { IfOk result (λ spec. spec.tokens ≡ tokens) }
    ensures plain { IfOk result (λ spec. spec.constructors ≡ []) }
{
    let mut field_names = Items::new(alloc);
    field_names.push(Items::from_slice(alloc, b"op")?)?;
    field_names.push(Items::from_slice(alloc, b"lo")?)?;
    Ok(Spec {
        tokens,
        class_names: Items::new(alloc),
        field_names,
        type_names: Items::new(alloc),
        constructors: Items::new(alloc),
        constructor_names: ConstructorNames::new(alloc),
    })
}

/// The number of the first arm on the window, where the arms are `field 0 = 1 & field 1` and `field 0 = 3 & field 1`.
fn first_number(alloc: Global, window: &[u8; 4]) -> Result<Option<usize>, NoMemory> {
    let spec = description(alloc, tokens(alloc, Order::Big, 24, 31)?)?;
    let mut arms = Items::new(alloc);
    for value in [1, 3] {
        arms.push(Arm {
            pattern: equal_and_bare(alloc, value)?,
            names: Items::new(alloc),
            action: Items::new(alloc),
        })?;
    }
    let statement = Statement { arms, skip: None };
    Ok(first(alloc, &spec, &statement, window)?.map(|found| found.0))
}

#[test]
fn the_first_arm(rt: HostRuntime) -> Result<(), Fail> {
    assert_eq!(rt; first_number(rt.alloc(), &[1, 0, 0, 5])?, Some(0));
    assert_eq!(rt; first_number(rt.alloc(), &[3, 0, 0, 5])?, Some(1));
    assert_eq!(rt; first_number(rt.alloc(), &[2, 0, 0, 5])?, None);
    Ok(())
}

#[test]
fn the_names_of_a_result(rt: HostRuntime) -> Result<(), Fail> {
    let spec = description(rt.alloc(), tokens(rt.alloc(), Order::Big, 0, 7)?)?;
    let mut names = Items::new(rt.alloc());
    names.push(Items::from_slice(rt.alloc(), b"here")?)?;
    names.push(Items::from_slice(rt.alloc(), b"lo")?)?;
    let arm = Arm {
        pattern: chain(rt.alloc())?,
        names,
        action: Items::new(rt.alloc()),
    };
    let window = [0, 0, 0, 1, 0, 0, 2, 0, 7];
    let found = results(rt.alloc(), &spec, &[], &arm.pattern, &window, 0)?;
    let binds = found.get(0).ok_or("no result")?.binds.as_slice();
    assert!(rt; is_named(&spec, FieldId(1), b"lo"));
    assert_eq!(rt; name_value(&spec, &arm, 100, binds, 0), Some(104));
    assert_eq!(rt; name_value(&spec, &arm, 100, binds, 1), Some(512));
    assert_eq!(rt; name_value(&spec, &arm, 100, binds, 2), None);
    Ok(())
}

fn name(alloc: Global, text: &[u8]) -> Result<Name, NoMemory>
    ensures { IfOk result (λ name. name ≡ text.now) }
{
    Ok(Items::from_slice(alloc, text)?)
}

/// A description with the class `word` and its field `op`.
fn word_and_op(alloc: Global) -> Result<(Spec, ClassId, FieldId), NoMemory> {
    let mut spec = Spec::new(alloc);
    let word = Class {
        width: 16,
        order: Order::Little,
    };
    let class = spec.add_class(name(alloc, b"word")?, word)?;
    let op = Field {
        class,
        lo: 12,
        hi: 15,
    };
    let field = spec.add_field(name(alloc, b"op")?, op)?;
    Ok((spec, class, field))
}

#[test]
fn a_description_that_grows(rt: HostRuntime) -> Result<(), Fail> {
    let (spec, class, field) = word_and_op(rt.alloc())?;
    assert_eq!(rt; (class, field), (ClassId(0), FieldId(0)));
    assert_eq!(rt; spec.tokens().token_len(field), 2);
    assert_eq!(rt; spec.field_name(field), Some(b"op".as_slice()));
    assert_eq!(rt; spec.field_name(FieldId(1)), None);
    Ok(())
}

/// The constructor of this name without operands, whose body is empty.
fn nullary(alloc: Global, text: &[u8]) -> Result<Constructor, NoMemory>
    ensures { IfOk result (λ c. c ≡ record { name = text.now; result = None; operands = []; names = []; equations = []; body = Empty }) }
{
    Ok(Constructor {
        name: name(alloc, text)?,
        result: None,
        operands: Items::new(alloc),
        names: Items::new(alloc),
        equations: Items::new(alloc),
        body: Pattern::Empty,
    })
}

#[tactic(auto, using(crate::proofs::Worked::nullary_known))]
#[test]
fn a_constructor_by_its_name(rt: HostRuntime) -> Result<(), Fail> {
    let mut spec = Spec::new(rt.alloc());
    let of = spec.add_type(name(rt.alloc(), b"reg")?)?;
    let nop = spec.add_constructor(nullary(rt.alloc(), b"nop")?)?;
    assert_eq!(rt; (of, nop), (TypeId(0), ConstructorId(0)));
    assert_eq!(rt; spec.find(b"nop"), Some(nop));
    assert_eq!(rt; spec.find(b"reg"), None);
    assert!(rt; spec.constructor(nop).is_some());
    assert!(rt; spec.constructor(ConstructorId(1)).is_none());
    Ok(())
}

/// The constructor with these operands and this type, whose name and body are empty.
fn with_operands(
    alloc: Global,
    of: Option<TypeId>,
    kinds: &[OperandKind],
) -> Result<Constructor, NoMemory> {
    Ok(Constructor {
        name: Items::new(alloc),
        result: of,
        operands: Items::from_slice(alloc, kinds)?,
        names: Items::new(alloc),
        equations: Items::new(alloc),
        body: Pattern::Empty,
    })
}

/// The instance `add(2, r(1))` where `r` has the number `inner`, and `add` 1.
fn sum(alloc: Global, inner: ConstructorId) -> Result<Instance, NoMemory> {
    let mut inner_operands = Items::new(alloc);
    inner_operands.push(Operand::Num(1))?;
    let inner = Instance {
        constructor: inner,
        operands: inner_operands,
    };
    let mut operands = Items::new(alloc);
    operands.push(Operand::Num(2))?;
    operands.push(Operand::Sub(Boxed::new(alloc, inner)?))?;
    Ok(Instance {
        constructor: ConstructorId(1),
        operands,
    })
}

#[test]
fn an_instance_that_is_admitted(rt: HostRuntime) -> Result<(), Fail> {
    let mut spec = description(rt.alloc(), tokens(rt.alloc(), Order::Big, 28, 31)?)?;
    let number = OperandKind::Plain(FieldId(0));
    let register = with_operands(rt.alloc(), Some(TypeId(0)), &[number])?;
    spec.constructors.push(register)?;
    let add = with_operands(rt.alloc(), None, &[number, OperandKind::Typed(TypeId(0))])?;
    spec.constructors.push(add)?;
    let instance = sum(rt.alloc(), ConstructorId(0))?.copy(rt.alloc())?;
    assert_eq!(rt; instance.operands.len(), 2);
    assert!(rt; spec.admits(&instance));
    assert!(rt; !spec.admits(&sum(rt.alloc(), ConstructorId(1))?));
    Ok(())
}

#[test]
fn the_range_of_an_operand(rt: HostRuntime) -> Result<(), Fail> {
    let spec = description(rt.alloc(), tokens(rt.alloc(), Order::Big, 28, 31)?)?;
    assert_eq!(rt; spec.range(&OperandKind::Plain(FieldId(0))), Some((0, 15)));
    assert_eq!(rt;
        spec.range(&OperandKind::Extended(FieldId(0))),
        Some((-8, 7))
    );
    assert_eq!(rt; spec.range(&OperandKind::Typed(TypeId(0))), None);
    Ok(())
}

/// The constructor of type 0, whose body is the relation of field 0 to the value.
fn of_type(alloc: Global, relation: Relation, value: u32) -> Result<Constructor, NoMemory> {
    let mut made = with_operands(alloc, Some(TypeId(0)), &[])?;
    made.body = Pattern::Limit {
        field: FieldId(0),
        relation,
        value,
    };
    Ok(made)
}

/// The description of `low() : t is x < 16`, `five() : t is x = 5`, and `ins(t) is t`, where x is a byte.
fn low_and_five(alloc: Global) -> Result<Spec, NoMemory>
    ensures tokens { IfOk result (λ spec. AreTokens spec.tokens) }
    ensures few { IfOk result (λ spec. length spec.constructors ≤ 2 ^ 32) }
{
    let mut spec = Spec::new(alloc);
    let class = spec.tokens.add_class(Class {
        width: 8,
        order: Order::Big,
    })?;
    spec.tokens.add_field(Field {
        class,
        lo: 0,
        hi: 7,
    })?;
    let mut ins = with_operands(alloc, None, &[OperandKind::Typed(TypeId(0))])?;
    ins.body = Pattern::Operand(0);
    spec.constructors
        .push(of_type(alloc, Relation::Below, 16)?)?;
    spec.constructors.push(of_type(alloc, Relation::Equal, 5)?)?;
    spec.constructors.push(ins)?;
    Ok(spec)
}

/// The application of the constructor to the argument.
fn apply(alloc: Global, constructor: u32, argument: Argument) -> Result<Pattern, NoMemory> {
    let mut arguments = Items::new(alloc);
    arguments.push(argument)?;
    Ok(Pattern::Apply {
        constructor: ConstructorId(constructor),
        arguments,
    })
}

/// The number of the constructor that the operand of each result of `ins` has, on the byte 5.
fn operand_choices(alloc: Global, argument: Argument) -> Result<Items<u32>, NoMemory> {
    let spec = low_and_five(alloc)?;
    let pattern = apply(alloc, 2, argument)?;
    let found = results(alloc, &spec, &[], &pattern, &[5], 0)?;
    let mut chosen = Items::new(alloc);
    for a in found.as_slice() {
        if let Some(RawEntry::Choice { inner, .. }) = a.binds.get(0) {
            if let Some(RawEntry::Choice { constructor, .. }) = inner.entries.get(0) {
                chosen.push(constructor.0)?;
            }
        }
    }
    Ok(chosen)
}

#[test]
fn the_results_of_an_application(rt: HostRuntime) -> Result<(), Fail> {
    let any = operand_choices(rt.alloc(), Argument::Any)?;
    assert_eq!(rt; any.as_slice(), [0, 1].as_slice());
    let named = operand_choices(rt.alloc(), Argument::Name(0))?;
    assert_eq!(rt; named.as_slice(), [0, 1].as_slice());
    let five = Pattern::Apply {
        constructor: ConstructorId(1),
        arguments: Items::new(rt.alloc()),
    };
    let inner = Argument::Inner(Boxed::new(rt.alloc(), five)?);
    assert_eq!(rt;
        operand_choices(rt.alloc(), inner)?.as_slice(),
        [1].as_slice()
    );
    Ok(())
}

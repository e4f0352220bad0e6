ghost use Rattle.std.specs.Prelude.{◌≡◌, [], ◌∷◌, codes, IfOk};
ghost use Rattle.pattern_normal.specs.declared.skeleton.Spot.TheVariants.{Value, Mark};
ghost use Rattle.instance_reading.specs.Example.{y, description as description_of};

use crate::{arm_results_mean, one_value_each, values};
use instance_reading::{Place, Scratch, example_row, plans_of};
use pattern_normal::Spot;
use sled_base::NoMemory;
use sled_model::{
    Arm, Constructor, ConstructorNames, Operand, OperandKind, OperandList, Pattern, Spec,
};
use sqlite_items::Items;
use std::alloc::Global;
use std::test::Fail;
use token_bits::{Class, ClassId, Field, FieldId, Order, Tokens};

/// `fields of b (8) y 4:7`
fn tokens(alloc: Global) -> Result<Tokens, NoMemory>
    ensures { IfOk result (λ tokens. tokens ≡ description_of.tokens) }
{
    let mut classes = Items::new(alloc);
    classes.push(Class {
        width: 8,
        order: Order::Big,
    })?;
    let mut fields = Items::new(alloc);
    fields.push(Field {
        class: ClassId(0),
        lo: 4,
        hi: 7,
    })?;
    Ok(Tokens { classes, fields })
}

/// `e(y) is y`
fn constructor(alloc: Global) -> Result<Constructor, NoMemory>
    ensures { IfOk result (λ c. (c ∷ []) ≡ description_of.constructors) }
{
    let mut operands = Items::new(alloc);
    operands.push(OperandKind::Plain(FieldId(0)))?;
    let mut names = Items::new(alloc);
    names.push(Items::from_slice(alloc, b"y")?)?;
    Ok(Constructor {
        name: Items::from_slice(alloc, b"e")?,
        result: None,
        operands,
        names,
        equations: Items::new(alloc),
        body: Pattern::Bind(FieldId(0)),
    })
}

/// Both.
fn description(alloc: Global) -> Result<Spec, NoMemory>
    ensures { IfOk result (λ spec. spec ≡ description_of) }
{
    let mut class_names = Items::new(alloc);
    class_names.push(Items::from_slice(alloc, b"b")?)?;
    let mut field_names = Items::new(alloc);
    field_names.push(Items::from_slice(alloc, b"y")?)?;
    let mut constructors = Items::new(alloc);
    constructors.push(constructor(alloc)?)?;
    let mut constructor_names = ConstructorNames::new(alloc);
    constructor_names.add(b"e")?;
    Ok(Spec {
        tokens: tokens(alloc)?,
        class_names,
        field_names,
        type_names: Items::new(alloc),
        constructors,
        constructor_names,
    })
}

/// An arm with these names.
fn named(alloc: Global, names: &[&[u8]]) -> Result<Arm, NoMemory> {
    let mut all = Items::new(alloc);
    for name in names {
        all.push(Items::from_slice(alloc, name)?)?;
    }
    Ok(Arm {
        pattern: Pattern::Empty,
        names: all,
        action: Items::new(alloc),
    })
}

/// `y` is read in the first byte and in the third, and label 1 stands at 2.
fn spots(alloc: Global) -> Result<Items<Spot>, NoMemory>
    ensures { IfOk result (λ spots. spots ≡ Value y 0 ∷ Mark 1 2 ∷ Value y 2 ∷ []) }
{
    let mut spots = Items::new(alloc);
    spots.push(Spot::Value {
        field: FieldId(0),
        at: 0,
    })?;
    spots.push(Spot::Mark { label: 1, at: 2 })?;
    spots.push(Spot::Value {
        field: FieldId(0),
        at: 2,
    })?;
    Ok(spots)
}

/// The values of `y`, of label 1 and of a name that no spot gives one, in a result at 16.
fn three_values(alloc: Global) -> Result<OperandList, NoMemory> {
    example_row();
    let spec = description(alloc)?;
    let plans = plans_of(alloc, &spec)?;
    let mut scratch = Scratch::new(alloc);
    let arm = named(
        alloc,
        &[b"y".as_slice(), b"here".as_slice(), b"x".as_slice()],
    )?;
    let bound = spots(alloc)?;
    let place = Place {
        spec: &spec,
        window: &[0x35, 0x00, 0x57],
        location: 16,
    };
    values(alloc, &plans, &mut scratch, &place, &arm, bound.as_slice())
}

#[test]
fn a_field_a_label_and_no_value(rt: HostRuntime) -> Result<(), Fail> {
    let found = three_values(rt.alloc())?;
    assert!(rt;
        matches!(
            found.as_slice(),
            [Operand::Num(3), Operand::Num(18), Operand::Num(0)]
        )
    );
    Ok(())
}

#[test]
fn laws(_rt: HostRuntime) {
    one_value_each();
    arm_results_mean();
}

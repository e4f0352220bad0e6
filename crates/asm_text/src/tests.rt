ghost use Rattle.std.specs.Prelude.{◌≡◌, [], ◌∷◌, codes, All, IfOk};
ghost use Rattle.sled_model.specs.declared.statement.Piece.TheVariants.{Words, Bound};
ghost use Rattle.asm_text.specs.Writable.{HasNoPlace};

use crate::{write_action, write_instance};
use sled_base::NoMemory;
use sled_model::{
    Arm, Constructor, ConstructorId, Instance, Operand, OperandKind, Pattern, Piece, Spec, TypeId,
};
use sqlite_items::{Boxed, Items};
use std::alloc::Global;
use std::test::Fail;

fn constructor(
    alloc: Global,
    name: &[u8],
    of: Option<TypeId>,
    kinds: &[OperandKind],
) -> Result<Constructor, NoMemory> {
    Ok(Constructor {
        name: Items::from_slice(alloc, name)?,
        result: of,
        operands: Items::from_slice(alloc, kinds)?,
        names: Items::new(alloc),
        equations: Items::new(alloc),
        body: Pattern::Empty,
    })
}

/// The constructors `addiu` of three numbers, `at8` of two, which is of type 0, and `m` of one instance of that type.
fn description(alloc: Global) -> Result<Spec, NoMemory> {
    let mut spec = Spec::new(alloc);
    let three = [OperandKind::Whole, OperandKind::Whole, OperandKind::Whole];
    let of = TypeId(0);
    spec.constructors
        .push(constructor(alloc, b"addiu", None, &three)?)?;
    spec.constructors
        .push(constructor(alloc, b"at8", Some(of), &three[..2])?)?;
    spec.constructors
        .push(constructor(alloc, b"m", None, &[OperandKind::Typed(of)])?)?;
    Ok(spec)
}

/// An instance whose operands are these numbers.
fn of_numbers(alloc: Global, number: u32, values: &[i64]) -> Result<Instance, NoMemory>
    ensures { IfOk result (λ i. All HasNoPlace i.operands) }
{
    let mut operands = Items::new(alloc);
    for value in values {
        operands.push(Operand::Num(*value))?;
    }
    Ok(Instance {
        constructor: ConstructorId(number),
        operands,
    })
}

/// An instance whose operand is this one.
fn around(alloc: Global, number: u32, inner: Instance) -> Result<Instance, NoMemory>
    requires { All HasNoPlace inner.operands }
    ensures { IfOk result (λ i. All HasNoPlace i.operands) }
{
    let mut operands = Items::new(alloc);
    operands.push(Operand::Sub(Boxed::new(alloc, inner)?))?;
    Ok(Instance {
        constructor: ConstructorId(number),
        operands,
    })
}

#[test]
fn an_instance_of_numbers(rt: HostRuntime) -> Result<(), Fail> {
    let spec = description(rt.alloc())?;
    let instance = of_numbers(rt.alloc(), 0, &[29, 29, -32])?;
    assert!(rt; spec.admits(&instance));
    let mut text = Vec::from_slice(rt.alloc(), b"0: ")?;
    write_instance(rt.alloc(), &spec, &instance, &mut text)?;
    assert_eq!(rt; text.as_slice(), b"0: addiu(29, 29, -32)".as_slice());
    Ok(())
}

#[test]
fn an_instance_inside_another(rt: HostRuntime) -> Result<(), Fail> {
    let spec = description(rt.alloc())?;
    let inner = of_numbers(rt.alloc(), 1, &[5, -4])?;
    let instance = around(rt.alloc(), 2, inner)?;
    assert!(rt; spec.admits(&instance));
    let mut text = Vec::new(rt.alloc());
    write_instance(rt.alloc(), &spec, &instance, &mut text)?;
    assert_eq!(rt; text.as_slice(), b"m(at8(5, -4))".as_slice());
    Ok(())
}

/// An arm that binds `v`, with the action `load {v}`.
fn load(alloc: Global) -> Result<Arm, NoMemory>
    ensures names { IfOk result (λ arm. arm.names ≡ codes "v" ∷ []) }
    ensures action { IfOk result (λ arm. arm.action ≡ Words (codes "load ") ∷ Bound 0 ∷ []) }
{
    let mut names = Items::new(alloc);
    names.push(Items::from_slice(alloc, b"v")?)?;
    let mut action = Items::new(alloc);
    action.push(Piece::Words(Items::from_slice(alloc, b"load ")?))?;
    action.push(Piece::Bound(0))?;
    Ok(Arm {
        pattern: Pattern::Empty,
        names,
        action,
    })
}

#[tactic(auto, using(crate::proofs::Worked::load_names_known))]
#[test]
fn an_action(rt: HostRuntime) -> Result<(), Fail> {
    let spec = Spec::new(rt.alloc());
    let arm = load(rt.alloc())?;
    let mut operands = Items::new(rt.alloc());
    operands.push(Operand::Num(5))?;
    let mut text = Vec::new(rt.alloc());
    write_action(rt.alloc(), &spec, &arm, &operands, &mut text)?;
    assert_eq!(rt; text.as_slice(), b"load 5".as_slice());
    Ok(())
}

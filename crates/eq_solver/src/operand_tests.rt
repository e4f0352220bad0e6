// Operands of worked constructors, and constructors whose operands do not all follow.
ghost use Rattle.std.specs.Prelude.{◌≡◌, ◌^◌, [], ◌∷◌, pos, ◌-ℤ◌, None, IfOk};
ghost use Rattle.sled_model.specs.Equations.{IsBetween};

use crate::tests::{constructor, equation, slices, spec, sums};
use crate::{NoSolution, PlanFault, plan_of};
use sled_base::NoMemory;
use sled_model::{Atom, Constructor, OperandKind, Pattern, Term};
use sqlite_items::Items;
use std::alloc::Global;
use std::test::Fail;
use token_bits::FieldId;

/// The operand that the fields for this operand give.
fn there_and_back(alloc: Global, operand: i64) -> Result<Result<i64, NoSolution>, PlanFault>
    requires { IsBetween (pos 0) (pos (2 ^ 32)) operand }
{
    let spec = spec(alloc)?;
    let constructor = slices(alloc)?;
    let plan = plan_of(alloc, &spec, &constructor)?;
    let mut cells = [0; 1];
    let mut back = [0; 1];
    match plan.fields(&[operand], &[], &mut cells) {
        Ok(()) => {
            plan.operands(&cells, &[], &mut back);
            Ok(Ok(back[0]))
        }
        Err(fault) => Ok(Err(fault)),
    }
}

/// The operands that the fields for these operands give, where two fields are hidden.
fn sums_there_and_back(
    alloc: Global,
    a: i64,
    b: i64,
    c: i64,
) -> Result<Result<(i64, i64, i64), NoSolution>, PlanFault>
    requires a { IsBetween (pos 0 -ℤ pos (2 ^ 34)) (pos (2 ^ 34)) a }
    requires b { IsBetween (pos 0 -ℤ pos (2 ^ 34)) (pos (2 ^ 34)) b }
    requires c { IsBetween (pos 0 -ℤ pos (2 ^ 34)) (pos (2 ^ 34)) c }
{
    let spec = spec(alloc)?;
    let constructor = sums(alloc)?;
    let plan = plan_of(alloc, &spec, &constructor)?;
    let mut cells = [0; 2];
    let mut back = [0; 3];
    match plan.fields(&[a, b, c], &[], &mut cells) {
        Ok(()) => {
            plan.operands(&cells, &[], &mut back);
            Ok(Ok((back[0], back[1], back[2])))
        }
        Err(fault) => Ok(Err(fault)),
    }
}

#[test]
fn sums_from_their_fields(rt: HostRuntime) -> Result<(), Fail> {
    let alloc = rt.alloc();
    assert_eq!(rt;
        sums_there_and_back(alloc, 3 * 65536 + 5, 3, 8).ok(),
        Some(Ok((3 * 65536 + 5, 3, 8)))
    );
    assert_eq!(rt;
        sums_there_and_back(alloc, 5 - 65536, -1, 20).ok(),
        Some(Ok((5 - 65536, -1, 20)))
    );
    Ok(())
}

#[test]
fn operands_from_their_fields(rt: HostRuntime) -> Result<(), Fail> {
    assert_eq!(rt; there_and_back(rt.alloc(), 0).ok(), Some(Ok(0)));
    assert_eq!(rt;
        there_and_back(rt.alloc(), 0x1234_5400).ok(),
        Some(Ok(0x1234_5400))
    );
    assert_eq!(rt;
        there_and_back(rt.alloc(), 0xFFFF_FC00).ok(),
        Some(Ok(0xFFFF_FC00))
    );
    Ok(())
}

/// One operand and the field 0, of which this equation speaks.
fn pair(alloc: Global, kind: OperandKind, left: Term, right: Term) -> Result<Constructor, NoMemory>
    ensures { IfOk result (λ c. c ≡ record {
      name = [];
      result = None;
      operands = kind ∷ [];
      names = [];
      equations = record { terms = left ∷ right ∷ []; rest = pos 0 } ∷ [];
      body = Pattern.Bind (record { 0 = 0 });
    }) }
{
    let mut equations = Items::new(alloc);
    equations.push(equation(alloc, &[left, right])?)?;
    constructor(alloc, &[kind], equations, Pattern::Bind(FieldId(0)))
}

fn twice_the_operand(alloc: Global) -> Result<bool, PlanFault> {
    let spec = spec(alloc)?;
    let left = Term {
        coefficient: 2,
        atom: Atom::Name(0),
    };
    let right = Term {
        coefficient: -1,
        atom: Atom::Field(FieldId(0)),
    };
    let constructor = pair(alloc, OperandKind::Whole, left, right)?;
    Ok(matches!(plan_of(alloc, &spec, &constructor), Err(PlanFault::Partial)))
}

fn twice_the_field(alloc: Global) -> Result<bool, PlanFault> {
    let spec = spec(alloc)?;
    let left = Term {
        coefficient: 1,
        atom: Atom::Name(0),
    };
    let right = Term {
        coefficient: -2,
        atom: Atom::Field(FieldId(0)),
    };
    let constructor = pair(alloc, OperandKind::Whole, left, right)?;
    Ok(plan_of(alloc, &spec, &constructor).is_ok())
}

fn low_byte_alone(alloc: Global) -> Result<bool, PlanFault> {
    let spec = spec(alloc)?;
    let low = Atom::Slice {
        operand: 0,
        lo: 0,
        hi: 7,
    };
    let left = Term {
        coefficient: 1,
        atom: low,
    };
    let right = Term {
        coefficient: -1,
        atom: Atom::Field(FieldId(0)),
    };
    let constructor = pair(alloc, OperandKind::Sliced, left, right)?;
    Ok(matches!(plan_of(alloc, &spec, &constructor), Err(PlanFault::Partial)))
}

#[test]
fn operands_that_do_not_follow(rt: HostRuntime) -> Result<(), Fail> {
    assert_eq!(rt; twice_the_field(rt.alloc()).ok(), Some(true));
    assert_eq!(rt; twice_the_operand(rt.alloc()).ok(), Some(true));
    assert_eq!(rt; low_byte_alone(rt.alloc()).ok(), Some(true));
    Ok(())
}

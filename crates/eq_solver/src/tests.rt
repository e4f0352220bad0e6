// Plans of worked constructors.
ghost use Rattle.std.specs.Prelude.{◌≡◌, ◌^◌, [], ◌∷◌, pos, ◌-ℤ◌, ℤ, None, IsSome, IfOk, slice_get};
ghost use Rattle.token_bits.specs.Tokens.{AreTokens};
ghost use Rattle.sled_model.specs.Equations.{IsBetween};
ghost use Rattle.sled_model.specs.declared.constructor.Term.{Term};
ghost use Rattle.sled_model.specs.declared.constructor.Equation.{Equation};

use crate::{NoSolution, PlanFault, plan_of};
use sled_base::NoMemory;
use sled_model::{Atom, Constructor, ConstructorNames, Equation, OperandKind, Pattern, Spec, Term};
use sqlite_items::Items;
use std::alloc::Global;
use std::test::Fail;
use token_bits::{Class, Field, FieldId, Order, Tokens};

/// Field 0, the 22 low bits, and 1, the next 4, of a class of 32 bits.
pub fn spec(alloc: Global) -> Result<Spec, NoMemory>
    ensures sound { IfOk result (λ spec. AreTokens spec.tokens) }
    ensures low { IfOk result (λ spec. IsSome (slice_get spec.tokens.fields 0)) }
    ensures high { IfOk result (λ spec. IsSome (slice_get spec.tokens.fields 1)) }
{
    let mut tokens = Tokens::new(alloc);
    let class = tokens.add_class(Class {
        width: 32,
        order: Order::Big,
    })?;
    tokens.add_field(Field {
        class,
        lo: 0,
        hi: 21,
    })?;
    tokens.add_field(Field {
        class,
        lo: 22,
        hi: 25,
    })?;
    Ok(Spec {
        tokens,
        class_names: Items::new(alloc),
        field_names: Items::new(alloc),
        type_names: Items::new(alloc),
        constructors: Items::new(alloc),
        constructor_names: ConstructorNames::new(alloc),
    })
}

/// The sum of the terms is 0.
pub fn equation(alloc: Global, terms: &[Term]) -> Result<Equation, NoMemory>
    ensures { IfOk result (λ e. e ≡ record { terms = terms.now; rest = pos 0 }) }
{
    Ok(Equation {
        terms: Items::from_slice(alloc, terms)?,
        rest: 0,
    })
}

fn term(coefficient: i64, atom: Atom) -> Term
    ensures { result ≡ record { coefficient = coefficient; atom = atom } }
{
    Term { coefficient, atom }
}

/// A constructor without names.
pub fn constructor(
    alloc: Global,
    kinds: &[OperandKind],
    equations: Items<Equation>,
    body: Pattern,
) -> Result<Constructor, NoMemory>
    ensures { IfOk result (λ c. c ≡ record { name = []; result = None; operands = kinds.now; names = []; equations = equations; body = body }) }
{
    Ok(Constructor {
        name: Items::new(alloc),
        result: None,
        operands: Items::from_slice(alloc, kinds)?,
        names: Items::new(alloc),
        equations,
        body,
    })
}

/// `t@[10:31] = f0, t@[0:9] = 0` over the field 0.
pub fn slices(alloc: Global) -> Result<Constructor, NoMemory>
    ensures { IfOk result (λ c. c ≡ record {
      name = [];
      result = None;
      operands = OperandKind.Sliced ∷ [];
      names = [];
      equations = record { terms = record { coefficient = pos 1; atom = Atom.Slice 0 10 31 } ∷ record { coefficient = pos 0 -ℤ pos 1; atom = Atom.Field (record { 0 = 0 }) } ∷ []; rest = pos 0 }
          ∷ record { terms = record { coefficient = pos 1; atom = Atom.Slice 0 0 9 } ∷ []; rest = pos 0 } ∷ [];
      body = Pattern.Bind (record { 0 = 0 });
    }) }
{
    let high = Atom::Slice {
        operand: 0,
        lo: 10,
        hi: 31,
    };
    let low = Atom::Slice {
        operand: 0,
        lo: 0,
        hi: 9,
    };
    let mut equations = Items::new(alloc);
    equations.push(equation(alloc, &[term(1, high), term(-1, Atom::Field(FieldId(0)))])?)?;
    equations.push(equation(alloc, &[term(1, low)])?)?;
    constructor(
        alloc,
        &[OperandKind::Sliced],
        equations,
        Pattern::Bind(FieldId(0)),
    )
}

/// The field's value for this operand.
fn field_of_slices(alloc: Global, operand: i64) -> Result<Result<i64, NoSolution>, PlanFault>
    requires { IsBetween (pos 0) (pos (2 ^ 32)) operand }
{
    let spec = spec(alloc)?;
    let constructor = slices(alloc)?;
    let plan = plan_of(alloc, &spec, &constructor)?;
    let mut out = [0; 1];
    match plan.fields(&[operand], &[], &mut out) {
        Ok(()) => Ok(Ok(out[0])),
        Err(fault) => Ok(Err(fault)),
    }
}

#[test]
fn slices_of_an_operand(rt: HostRuntime) -> Result<(), Fail> {
    let missing = Some(Err(NoSolution { equation: 1 }));
    assert_eq!(rt; field_of_slices(rt.alloc(), 0).ok(), Some(Ok(0)));
    assert_eq!(rt;
        field_of_slices(rt.alloc(), 0x1234_5400).ok(),
        Some(Ok(0x4_8D15))
    );
    assert_eq!(rt;
        field_of_slices(rt.alloc(), 0xFFFF_FC00).ok(),
        Some(Ok(0x3F_FFFF))
    );
    assert_eq!(rt; field_of_slices(rt.alloc(), 1).ok(), missing);
    assert_eq!(rt; field_of_slices(rt.alloc(), 0xFFFF_FFFF).ok(), missing);
    Ok(())
}

const LOW: FieldId = FieldId(0);

const HIGH: FieldId = FieldId(1);

/// `c = f0 + f1` over the whole operand c of this number.
fn both_equation(alloc: Global, operand: u32) -> Result<Equation, NoMemory>
    ensures { IfOk result (λ e. e ≡ record {
      terms = record { coefficient = pos 1; atom = Atom.Name operand } ∷ record { coefficient = pos 0 -ℤ pos 1; atom = Atom.Field (record { 0 = 0 }) }
          ∷ record { coefficient = pos 0 -ℤ pos 1; atom = Atom.Field (record { 0 = 1 }) } ∷ [];
      rest = pos 0;
    }) }
{
    equation(
        alloc,
        &[
            term(1, Atom::Name(operand)),
            term(-1, Atom::Field(LOW)),
            term(-1, Atom::Field(HIGH)),
        ],
    )
}

fn two_fields(alloc: Global) -> Result<Pattern, NoMemory>
    ensures { IfOk result (λ p. p ≡ Pattern.Both (Pattern.Bind (record { 0 = 0 }) ∷ Pattern.Bind (record { 0 = 1 }) ∷ [])) }
{
    let mut parts = Items::new(alloc);
    parts.push(Pattern::Bind(LOW))?;
    parts.push(Pattern::Bind(HIGH))?;
    Ok(Pattern::Both(parts))
}

/// `a = f0 + 65536 * f1!, b = f1!, c = f0 + f1`, in which the second equation is solved first.
pub fn sums(alloc: Global) -> Result<Constructor, NoMemory>
    ensures { IfOk result (λ c. c ≡ record {
      name = [];
      result = None;
      operands = OperandKind.Whole ∷ OperandKind.Whole ∷ OperandKind.Whole ∷ [];
      names = [];
      equations = record {
        terms = record { coefficient = pos 1; atom = Atom.Name 0 } ∷ record { coefficient = pos 0 -ℤ pos 1; atom = Atom.Field (record { 0 = 0 }) }
            ∷ record { coefficient = pos 0 -ℤ pos 65536; atom = Atom.Signed (record { 0 = 1 }) } ∷ [];
        rest = pos 0;
      }
          ∷ record { terms = record { coefficient = pos 1; atom = Atom.Name 1 } ∷ record { coefficient = pos 0 -ℤ pos 1; atom = Atom.Signed (record { 0 = 1 }) } ∷ []; rest = pos 0 }
          ∷ record {
            terms = record { coefficient = pos 1; atom = Atom.Name 2 } ∷ record { coefficient = pos 0 -ℤ pos 1; atom = Atom.Field (record { 0 = 0 }) }
                ∷ record { coefficient = pos 0 -ℤ pos 1; atom = Atom.Field (record { 0 = 1 }) } ∷ [];
            rest = pos 0;
          } ∷ [];
      body = Pattern.Both (Pattern.Bind (record { 0 = 0 }) ∷ Pattern.Bind (record { 0 = 1 }) ∷ []);
    }) }
{
    let mut equations = Items::new(alloc);
    equations.push(equation(
        alloc,
        &[
            term(1, Atom::Name(0)),
            term(-1, Atom::Field(LOW)),
            term(-65536, Atom::Signed(HIGH)),
        ],
    )?)?;
    equations.push(equation(
        alloc,
        &[term(1, Atom::Name(1)), term(-1, Atom::Signed(HIGH))],
    )?)?;
    equations.push(both_equation(alloc, 2)?)?;
    let kinds = [OperandKind::Whole, OperandKind::Whole, OperandKind::Whole];
    constructor(alloc, &kinds, equations, two_fields(alloc)?)
}

/// The values of both fields for these operands.
fn fields_of_sums(
    alloc: Global,
    a: i64,
    b: i64,
    c: i64,
) -> Result<Result<(i64, i64), NoSolution>, PlanFault>
    requires a { IsBetween (pos 0 -ℤ pos (2 ^ 34)) (pos (2 ^ 34)) a }
    requires b { IsBetween (pos 0 -ℤ pos (2 ^ 34)) (pos (2 ^ 34)) b }
    requires c { IsBetween (pos 0 -ℤ pos (2 ^ 34)) (pos (2 ^ 34)) c }
{
    let spec = spec(alloc)?;
    let constructor = sums(alloc)?;
    let plan = plan_of(alloc, &spec, &constructor)?;
    let mut out = [0; 2];
    match plan.fields(&[a, b, c], &[], &mut out) {
        Ok(()) => Ok(Ok((out[0], out[1]))),
        Err(fault) => Ok(Err(fault)),
    }
}

#[test]
fn fields_out_of_the_written_order(rt: HostRuntime) -> Result<(), Fail> {
    let alloc = rt.alloc();
    assert_eq!(rt;
        fields_of_sums(alloc, 3 * 65536 + 5, 3, 8).ok(),
        Some(Ok((5, 3)))
    );
    assert_eq!(rt;
        fields_of_sums(alloc, 5 - 65536, -1, 20).ok(),
        Some(Ok((5, 15)))
    );
    assert_eq!(rt;
        fields_of_sums(alloc, 0, 8, 0).ok(),
        Some(Err(NoSolution { equation: 1 }))
    );
    assert_eq!(rt;
        fields_of_sums(alloc, 0x40_0000, 0, 0).ok(),
        Some(Err(NoSolution { equation: 0 }))
    );
    assert_eq!(rt;
        fields_of_sums(alloc, 5, 0, 6).ok(),
        Some(Err(NoSolution { equation: 2 }))
    );
    Ok(())
}

/// `c = f0 + f1`, which determines neither field.
fn one_sum(alloc: Global) -> Result<Constructor, NoMemory>
    ensures { IfOk result (λ c. c ≡ record {
      name = [];
      result = None;
      operands = OperandKind.Whole ∷ [];
      names = [];
      equations = record {
        terms = record { coefficient = pos 1; atom = Atom.Name 0 } ∷ record { coefficient = pos 0 -ℤ pos 1; atom = Atom.Field (record { 0 = 0 }) }
            ∷ record { coefficient = pos 0 -ℤ pos 1; atom = Atom.Field (record { 0 = 1 }) } ∷ [];
        rest = pos 0;
      } ∷ [];
      body = Pattern.Both (Pattern.Bind (record { 0 = 0 }) ∷ Pattern.Bind (record { 0 = 1 }) ∷ []);
    }) }
{
    let mut equations = Items::new(alloc);
    equations.push(both_equation(alloc, 0)?)?;
    constructor(alloc, &[OperandKind::Whole], equations, two_fields(alloc)?)
}

#[test]
fn undetermined(rt: HostRuntime) -> Result<(), Fail> {
    let spec = spec(rt.alloc())?;
    let constructor = one_sum(rt.alloc())?;
    let plan = plan_of(rt.alloc(), &spec, &constructor);
    assert!(rt; matches!(plan, Err(PlanFault::Undetermined)));
    Ok(())
}

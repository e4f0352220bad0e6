// The values of a constructor's operands by its equations.
ghost use Rattle.std.specs.Prelude.{◌≡◌, ◌≤◌, ◌<◌, ◌+◌, ◌++◌, ℕ, map, length, filter, All, IfOk, IfSome, OnOk, IsErrOf, MatchBool, MatchOption, slice_get, Some};
ghost use Rattle.token_bits.specs.Tokens.{AreTokens};
ghost use Rattle.sled_model.specs.declared.constructor.Atom.{Atom as AtomOf};
ghost use Rattle.sled_model.specs.declared.constructor.OperandKind.{OperandKind as KindOf};
ghost use Rattle.sled_model.specs.Linear.{IsLinear};
ghost use Rattle.sled_model.specs.Solved.{is_whole_of, is_bit_of, GivesOperand, IsSolved};
ghost use Rattle.eq_solver.specs.declared.plan.Value.{Value as ValueIs};
ghost use Rattle.eq_solver.specs.Ranges.{IsPlainEquation, IsInOrder};
ghost use Rattle.eq_solver.specs.Values.{AreValuesOf, is_ending, is_slice_of, low_of, IsHeldBy, AreHeld, IsFound, AddsSlices, AreSlices, IsSolvedBy};

use crate::PlanFault;
use crate::plan::{OperandValues, Value, ValueList};
use crate::targets::given_value;
use sled_base::NoMemory;
use sled_model::{Atom, Constructor, Equation, OperandKind};
use sqlite_items::Items;
use std::alloc::Global;
use token_bits::Tokens;

/// The value of each equation, in order, or `Partial` where one gives no operand or a value out of range.
fn each_value(
    alloc: Global,
    tokens: &Tokens,
    equations: &[Equation],
) -> Result<ValueList, PlanFault>
    requires sound { AreTokens tokens.now }
    requires plain { All IsPlainEquation equations.now }
    ensures values { IfOk result (AreValuesOf tokens.now equations.now) }
    ensures partial { IsErrOf result PlanFault.Partial → All (GivesOperand tokens.now) equations.now → ⊥ }
    ensures decided { IsErrOf result PlanFault.Undetermined → ⊥ }
{
    let mut values = Items::new(alloc);
    for number in 0..equations.len() {
        match given_value(alloc, tokens, &equations[number])? {
            None => return Err(PlanFault::Partial),
            Some(value) => values.push(value)?,
        }
    }
    Ok(values)
}

fn targets(alloc: Global, values: &[Value]) -> Result<Items<Atom>, NoMemory>
    ensures { IfOk result (λ atoms. atoms ≡ map (λ (g : ValueIs). g.target) values.now) }
{
    let mut found = Items::new(alloc);
    for number in 0..values.len() {
        found.push(values[number].target)?;
    }
    Ok(found)
}

fn is_whole_of(operand: usize, atom: Atom) -> bool
    ensures { result ≡ is_whole_of operand atom }
{
    match atom {
        Atom::Name(number) => number as usize == operand,
        Atom::Slice { .. } | Atom::Field(_) | Atom::Signed(_) | Atom::Label(_) => false,
    }
}

fn is_bit_of(operand: usize, bit: u8, atom: Atom) -> bool
    ensures { result ≡ is_bit_of operand bit atom }
{
    match atom {
        Atom::Slice {
            operand: number,
            lo,
            hi,
        } => number as usize == operand && (lo <= bit && bit <= hi),
        Atom::Name(_) | Atom::Field(_) | Atom::Signed(_) | Atom::Label(_) => false,
    }
}

fn count_wholes(targets: &[Atom], operand: usize) -> usize
    ensures { result ≡ length (filter (λ (a : AtomOf). is_whole_of operand a) targets.now) }
{
    let mut count = 0;
    for target in targets {
        if is_whole_of(operand, *target) {
            count += 1;
        }
    }
    count
}

fn count_bits(targets: &[Atom], operand: usize, bit: u8) -> usize
    ensures { result ≡ length (filter (λ (a : AtomOf). is_bit_of operand bit a) targets.now) }
{
    let mut count = 0;
    for target in targets {
        if is_bit_of(operand, bit, *target) {
            count += 1;
        }
    }
    count
}

fn are_bits_held(targets: &[Atom], operand: usize) -> bool
    ensures { MatchBool result (IsHeldBy targets.now operand KindOf.Sliced) (IsHeldBy targets.now operand KindOf.Sliced → ⊥) }
{
    for bit in 0..32 {
        if count_bits(targets, operand, bit) != 1 {
            return false;
        }
    }
    true
}

/// Whether a whole operand is one equation's target, and each bit of a sliced one.
fn is_held(targets: &[Atom], operand: usize, kind: OperandKind) -> bool
    ensures { MatchBool result (IsHeldBy targets.now operand kind) (IsHeldBy targets.now operand kind → ⊥) }
{
    match kind {
        OperandKind::Whole => count_wholes(targets, operand) == 1,
        OperandKind::Sliced => are_bits_held(targets, operand),
        OperandKind::Plain(_) | OperandKind::Extended(_) | OperandKind::Typed(_) => true,
    }
}

fn are_held(targets: &[Atom], kinds: &[OperandKind]) -> bool
    ensures { MatchBool result (AreHeld targets.now kinds.now) (AreHeld targets.now kinds.now → ⊥) }
{
    for operand in 0..kinds.len() {
        if !is_held(targets, operand, kinds[operand]) {
            return false;
        }
    }
    true
}

fn is_ending(operand: usize, top: u8, atom: Atom) -> bool
    ensures { result ≡ is_ending operand top atom }
{
    match atom {
        Atom::Slice {
            operand: number,
            hi,
            ..
        } => number as usize == operand && hi as u32 + 1 == top as u32,
        Atom::Name(_) | Atom::Field(_) | Atom::Signed(_) | Atom::Label(_) => false,
    }
}

/// The number of the first target that is a slice of the operand that ends below bit `top`.
fn slice_below(targets: &[Atom], operand: usize, top: u8) -> Option<usize>
    ensures is { MatchOption result ((i : ℕ) → IsFound targets.now operand top i → ⊥) (IsFound targets.now operand top) }
    ensures within { IfSome result (λ i. i < length targets.now) }
{
    for number in 0..targets.len() {
        if is_ending(operand, top, targets[number]) {
            return Some(number);
        }
    }
    None
}

fn low_of(atom: Atom) -> u8
    ensures { result ≡ low_of atom }
{
    match atom {
        Atom::Slice { lo, .. } => lo,
        Atom::Name(_) | Atom::Field(_) | Atom::Signed(_) | Atom::Label(_) => 0,
    }
}

/// Adds the numbers of the operand's slices, from the highest bit down.
fn push_slices(targets: &[Atom], operand: usize, slices: &mut Items<usize>) -> Result<(), PlanFault>
    requires orders { All IsInOrder targets.now }
    ensures added { OnOk result (AddsSlices targets.now operand KindOf.Sliced slices.old slices.new) }
    ensures partial { IsErrOf result PlanFault.Partial → IsHeldBy targets.now operand KindOf.Sliced → ⊥ }
    ensures decided { IsErrOf result PlanFault.Undetermined → ⊥ }
{
    let mut top = 32;
    while top > 0 {
        let Some(number) = slice_below(targets, operand, top) else {
            return Err(PlanFault::Partial);
        };
        slices.push(number)?;
        top = low_of(targets[number]);
    }
    Ok(())
}

fn add_slices(
    targets: &[Atom],
    operand: usize,
    kind: OperandKind,
    slices: &mut Items<usize>,
) -> Result<(), PlanFault>
    requires orders { All IsInOrder targets.now }
    ensures added { OnOk result (AddsSlices targets.now operand kind slices.old slices.new) }
    ensures partial { IsErrOf result PlanFault.Partial → IsHeldBy targets.now operand kind → ⊥ }
    ensures decided { IsErrOf result PlanFault.Undetermined → ⊥ }
{
    match kind {
        OperandKind::Sliced => push_slices(targets, operand, slices),
        OperandKind::Whole
        | OperandKind::Plain(_)
        | OperandKind::Extended(_)
        | OperandKind::Typed(_) => Ok(()),
    }
}

/// The numbers of the slices of each operand, from the highest bit down.
fn all_slices(
    alloc: Global,
    targets: &[Atom],
    kinds: &[OperandKind],
) -> Result<Items<usize>, PlanFault>
    requires orders { All IsInOrder targets.now }
    ensures slices { IfOk result (AreSlices targets.now kinds.now) }
    ensures partial { IsErrOf result PlanFault.Partial → AreHeld targets.now kinds.now → ⊥ }
    ensures decided { IsErrOf result PlanFault.Undetermined → ⊥ }
{
    let mut slices = Items::new(alloc);
    for operand in 0..kinds.len() {
        add_slices(targets, operand, kinds[operand], &mut slices)?;
    }
    Ok(slices)
}

/// The same values, with the order of the slices among them, or `Partial` exactly where one operand is not held once.
fn ordered(
    alloc: Global,
    values: ValueList,
    kinds: &[OperandKind],
) -> Result<OperandValues, PlanFault>
    requires orders { All IsInOrder (map (λ (g : ValueIs). g.target) values) }
    ensures same { IfOk result (λ v. v.values ≡ values) }
    ensures held { IfOk result (λ _. AreHeld (map (λ (g : ValueIs). g.target) values) kinds.now) }
    ensures slices { IfOk result (λ v. AreSlices (map (λ (g : ValueIs). g.target) values) kinds.now v.slices) }
    ensures partial { IsErrOf result PlanFault.Partial → AreHeld (map (λ (g : ValueIs). g.target) values) kinds.now → ⊥ }
    ensures decided { IsErrOf result PlanFault.Undetermined → ⊥ }
{
    let targets = targets(alloc, values.as_slice())?;
    if !are_held(targets.as_slice(), kinds) {
        return Err(PlanFault::Partial);
    }
    match all_slices(alloc, targets.as_slice(), kinds) {
        Ok(slices) => Ok(OperandValues { values, slices }),
        Err(fault) => Err(fault),
    }
}

/// The value of each of the constructor's equations, and the order of the slices among them; or `Partial` exactly where
/// condition 13 is not met.
pub fn values_of(
    alloc: Global,
    tokens: &Tokens,
    constructor: &Constructor,
) -> Result<OperandValues, PlanFault>
    requires sound { AreTokens tokens.now }
    requires linear { IsLinear tokens.now constructor.now }
    ensures solved { IfOk result (λ _. IsSolved tokens.now constructor.now) }
    ensures values { IfOk result (λ v. IsSolvedBy tokens.now constructor.now v.values v.slices) }
    ensures partial { IsErrOf result PlanFault.Partial → IsSolved tokens.now constructor.now → ⊥ }
    ensures decided { IsErrOf result PlanFault.Undetermined → ⊥ }
{
    match each_value(alloc, tokens, constructor.equations.as_slice()) {
        Ok(values) => ordered(alloc, values, constructor.operands.as_slice()),
        Err(fault) => Err(fault),
    }
}

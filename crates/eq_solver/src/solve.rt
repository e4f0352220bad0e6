// One step of a plan, and all of them.

ghost use Rattle.std.specs.Prelude.{◌≡◌, ◌≢◌, ◌+◌, ◌*◌, ◌^◌, ◌<◌, ◌≤◌, ◌+ℤ◌, ◌-ℤ◌, ◌*ℤ◌, ◌≤ℤ◌, ◌<ℤ◌, pos, ℤ, ℕ, Bool, List, length, All, MatchOption, true, IfOk, IfErr};
ghost use Rattle.std.specs.Bool.{MatchBool};
ghost use Rattle.sled_model.specs.Equations.{sign_extended, sum_of, IsBetween};
ghost use Rattle.sled_model.specs.Linear.{IsWithin};
ghost use Rattle.eq_solver.specs.Sums.{at, setting_from, IsTerm, IsAtom, AreValues, IsEquation};
ghost use Rattle.eq_solver.specs.Steps.{as_read, IsRoot, IsOnlyRoot, IsOnlyRead, IsQuotient, AreFields, IsStep, Advances, Sticks, closed_by, IsWork, Finds, AreSteps, Solved, IsUnsolvable};

use crate::plan::{SolvingStep, Work};
use crate::sums::{number_at, sum};
use sled_model::Equation;

/// The only value in range of a field that with this coefficient makes up for the total.
pub fn solve_for(half: i64, signed: bool, coefficient: i64, total: i64) -> Option<i64>
    requires half { IsBetween (pos 1) (pos (2 ^ 31 + 1)) half }
    requires coefficient { IsWithin (2 ^ 16) coefficient }
    requires nonzero { coefficient ≢ pos 0 }
    requires total { IsWithin (2 ^ 55) total }
    ensures { MatchOption result ((x : ℤ) → IsRoot half signed coefficient total x → ⊥) (IsOnlyRoot half signed coefficient total) }
{
    match quotient(-total, coefficient) {
        None => None,
        Some(read) => unread(half, signed, read),
    }
}

/// The only value in range that is read so.
fn unread(half: i64, signed: bool, read: i64) -> Option<i64>
    requires half { IsBetween (pos 1) (pos (2 ^ 31 + 1)) half }
    requires read { IsWithin (2 ^ 55) read }
    ensures { MatchOption result ((x : ℤ) → IsBetween (pos 0) (half +ℤ half) x → as_read signed half x ≡ read → ⊥) (IsOnlyRead half signed read) }
{
    if signed {
        return unread_signed(half, read);
    }
    if 0 <= read && read < half + half {
        Some(read)
    } else {
        None
    }
}

fn unread_signed(half: i64, read: i64) -> Option<i64>
    requires half { IsBetween (pos 1) (pos (2 ^ 31 + 1)) half }
    requires read { IsWithin (2 ^ 55) read }
    ensures { MatchOption result ((x : ℤ) → IsBetween (pos 0) (half +ℤ half) x → sign_extended half x ≡ read → ⊥) (IsOnlyRead half true read) }
{
    if 0 <= read && read < half {
        return Some(read);
    }
    if -half <= read && read < 0 {
        Some(read + (half + half))
    } else {
        None
    }
}

/// The quotient where there is no remainder.
fn quotient(total: i64, coefficient: i64) -> Option<i64>
    requires coefficient { IsWithin (2 ^ 16) coefficient }
    requires nonzero { coefficient ≢ pos 0 }
    requires total { IsWithin (2 ^ 55) total }
    ensures { MatchOption result ((x : ℤ) → coefficient *ℤ x ≡ total → ⊥) (IsQuotient coefficient total) }
{
    if total % coefficient != 0 {
        return None;
    }
    Some(total / coefficient)
}

/// Does the step. Where it finds nothing, no values satisfy the equation together with those before it.
fn step(
    halves: &[i64],
    operands: &[i64],
    labels: &[i64],
    out: &mut [i64],
    equation: &Equation,
    work: Work,
) -> bool
    requires equation { IsEquation operands.now (length out.old) (length labels.now) equation.now }
    requires values { AreValues halves.now operands.now labels.now out.old }
    requires work { IsWork (length out.old) work }
    ensures { Finds (setting_from halves.now operands.now labels.now) (length out.old) equation.now work (at out.old) (at out.new) result }
{
    match work {
        Work::Check => sum(halves, operands, labels, out, equation.terms.as_slice()) + equation.rest
            == 0,
        Work::Solve {
            cell,
            signed,
            coefficient,
        } => solve(
            halves,
            operands,
            labels,
            out,
            equation,
            cell,
            signed,
            coefficient,
        ),
    }
}

fn solve(
    halves: &[i64],
    operands: &[i64],
    labels: &[i64],
    out: &mut [i64],
    equation: &Equation,
    cell: u32,
    signed: bool,
    coefficient: i64,
) -> bool
    requires equation { IsEquation operands.now (length out.old) (length labels.now) equation.now }
    requires values { AreValues halves.now operands.now labels.now out.old }
    requires cell { cell < length out.old }
    requires coefficient { IsWithin (2 ^ 16) coefficient }
    requires nonzero { coefficient ≢ pos 0 }
    ensures { Finds (setting_from halves.now operands.now labels.now) (length out.old) equation.now (Work.Solve cell signed coefficient) (at out.old) (at out.new) result }
{
    out[cell as usize] = 0;
    let total = sum(halves, operands, labels, out, equation.terms.as_slice()) + equation.rest;
    match solve_for(number_at(halves, cell), signed, coefficient, total) {
        None => false,
        Some(value) => {
            out[cell as usize] = value;
            true
        }
    }
}

/// Makes the steps in order. After an error nothing is stated of `out`.
pub fn run(
    hidden: &[bool],
    steps: &[SolvingStep],
    equations: &[Equation],
    halves: &[i64],
    operands: &[i64],
    labels: &[i64],
    out: &mut [i64],
) -> Result<(), u16>
    requires hidden { length hidden.now ≡ length out.old }
    requires work { All (λ s. (s.equation < length equations.now) × IsWork (length out.old) s.work) steps.now }
    requires steps { AreSteps (at halves.now) equations.now hidden.now steps.now }
    requires equations { All (IsEquation operands.now (length out.old) (length labels.now)) equations.now }
    requires values { AreValues halves.now operands.now labels.now out.old }
    ensures solved { IfOk result (λ _. Solved (setting_from halves.now operands.now labels.now) (length out.old) hidden.now equations.now steps.now (at out.old) (at out.new)) }
    ensures unsolvable { IfErr result (IsUnsolvable (setting_from halves.now operands.now labels.now) (length out.old) hidden.now equations.now steps.now (at out.old)) }
{
    for made in steps {
        let equation = &equations[made.equation as usize];
        if !step(halves, operands, labels, out, equation, made.work) {
            return Err(made.equation);
        }
    }
    Ok(())
}

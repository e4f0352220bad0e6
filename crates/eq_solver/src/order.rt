// The solving order.

ghost use Rattle.std.specs.Prelude.{◌≡◌, ◌≢◌, ◌+◌, ◌<◌, ◌≤◌, pos, ℤ, ℕ, Bool, List, length, All, IfSome, IfOk, IsErrOf, Some, None, not, false, replicate, ◌&&◌};
ghost use Rattle.eq_solver.specs.Sums.{IsFieldOf};
ghost use Rattle.eq_solver.specs.Solving as spec;
ghost use Rattle.eq_solver.specs.Solving.{with_atom, open_of, next_open_equation, occurrence_with, occurrence_from, work_for, none_open, plan_from, IsWorkOf, IsOpenOf};
ghost use Rattle.eq_solver.specs.Steps.{closed_by};
ghost use Rattle.eq_solver.specs.Determined.{AreGood, IsPlan, DeterminesAll};

use crate::PlanFault;
use crate::plan::{Occurrence, Open, SolvingStep, Work};
use sled_model::{Atom, Equation, Term};
use sqlite_items::Items;
use std::alloc::Global;
use token_bits::FieldId;

fn with_field(left: &[bool], found: Open, atom: Atom) -> Open
    requires atom { IsFieldOf (length left.now) atom }
    requires found { IsOpenOf (length left.now) found }
    ensures is { result ≡ with_atom left.now found atom }
    ensures within { IsOpenOf (length left.now) result }
{
    let (Atom::Field(FieldId(field)) | Atom::Signed(FieldId(field))) = atom else {
        return found;
    };
    if !left[field as usize] {
        return found;
    }
    match found {
        Open::Nothing => Open::One(field),
        Open::One(other) => if other == field { found } else { Open::Many },
        Open::Many => Open::Many,
    }
}

fn open(left: &[bool], terms: &[Term]) -> Open
    requires { All (λ t. IsFieldOf (length left.now) t.atom) terms.now }
    ensures is { result ≡ open_of left.now terms.now }
    ensures within { IsOpenOf (length left.now) result }
{
    let mut found = Open::Nothing;
    for term in terms {
        found = with_field(left, found, term.atom);
    }
    found
}

fn next(equations: &[Equation], taken: &[bool], left: &[bool]) -> Option<usize>
    requires fields { All (λ e. All (λ t. IsFieldOf (length left.now) t.atom) e.terms) equations.now }
    requires taken { length taken.now ≡ length equations.now }
    ensures is { result ≡ next_open_equation taken.now left.now 0 equations.now }
    ensures within { IfSome result (λ k. k < length equations.now) }
{
    for number in 0..equations.len() {
        if is_next(&equations[number], taken[number], left) {
            return Some(number);
        }
    }
    None
}

fn is_next(equation: &Equation, taken: bool, left: &[bool]) -> bool
    requires fields { All (λ t. IsFieldOf (length left.now) t.atom) equation.now.terms }
    ensures { result ≡ (not taken && spec.is_few (open_of left.now equation.now.terms)) }
{
    !taken && is_few(open(left, equation.terms.as_slice()))
}

fn is_few(found: Open) -> bool
    ensures { result ≡ spec.is_few found }
{
    match found {
        Open::Nothing | Open::One(_) => true,
        Open::Many => false,
    }
}

fn one_more(found: Occurrence, signed: bool, coefficient: i64) -> Occurrence
    ensures { result ≡ spec.one_more found signed coefficient }
{
    match found {
        Occurrence::Absent => Occurrence::Once {
            signed,
            coefficient,
        },
        Occurrence::Once { .. } | Occurrence::Often => Occurrence::Often,
    }
}

fn with_term(field: u32, found: Occurrence, term: &Term) -> Occurrence
    ensures { result ≡ occurrence_with field found term.now.coefficient term.now.atom }
{
    match term.atom {
        Atom::Field(FieldId(other)) => if other == field {
            one_more(found, false, term.coefficient)
        } else {
            found
        },
        Atom::Signed(FieldId(other)) => if other == field {
            one_more(found, true, term.coefficient)
        } else {
            found
        },
        Atom::Name(_) | Atom::Slice { .. } | Atom::Label(_) => found,
    }
}

fn occurrence(field: u32, terms: &[Term]) -> Occurrence
    ensures { result ≡ occurrence_from field Occurrence.Absent terms.now }
{
    let mut found = Occurrence::Absent;
    for term in terms {
        found = with_term(field, found, term);
    }
    found
}

fn work(left: &[bool], terms: &[Term]) -> Option<Work>
    requires { All (λ t. IsFieldOf (length left.now) t.atom) terms.now }
    ensures is { result ≡ work_for (open_of left.now terms.now) terms.now }
    ensures within { IfSome result (IsWorkOf (length left.now)) }
{
    match open(left, terms) {
        Open::Nothing => Some(Work::Check),
        Open::One(field) => match occurrence(field, terms) {
            Occurrence::Once {
                signed,
                coefficient,
            } => Some(Work::Solve {
                cell: field,
                signed,
                coefficient,
            }),
            Occurrence::Absent | Occurrence::Often => None,
        },
        Open::Many => None,
    }
}

fn close(left: &mut Items<bool>, work: Work)
    requires { IsWorkOf (length left.old) work }
    ensures { left.new ≡ closed_by left.old work }
{
    if let Work::Solve { cell, .. } = work {
        left.set(cell as usize, false);
    }
}

fn is_closed(left: &[bool]) -> bool
    ensures { result ≡ none_open left.now }
{
    for open in left {
        if *open {
            return false;
        }
    }
    true
}

fn next_step(equations: &[Equation], taken: &[bool], left: &[bool]) -> Option<SolvingStep>
    requires fields { All (λ e. All (λ t. IsFieldOf (length left.now) t.atom) e.terms) equations.now }
    requires taken { length taken.now ≡ length equations.now }
    requires few { length equations.now ≤ 32 }
    ensures is { result ≡ spec.next_step equations.now taken.now left.now }
    ensures within { IfSome result (λ s. (s.equation < length equations.now) × IsWorkOf (length left.now) s.work) }
{
    let number = next(equations, taken, left)?;
    let work = work(left, equations[number].terms.as_slice())?;
    Some(SolvingStep {
        equation: number as u16,
        work,
    })
}

/// The steps in solving order, where it takes every equation and determines every field.
pub fn steps_of(
    alloc: Global,
    equations: &[Equation],
    hidden: &[bool],
) -> Result<Items<SolvingStep>, PlanFault>
    requires fields { All (λ e. All (λ t. IsFieldOf (length hidden.now) t.atom) e.terms) equations.now }
    requires few { length equations.now ≤ 32 }
    ensures steps { IfOk result (λ ss. plan_from (length equations.now) equations.now (replicate (length equations.now) false) hidden.now ≡ Some ss) }
    ensures whole { IsErrOf result PlanFault.Partial → ⊥ }
    ensures fault { IsErrOf result PlanFault.Undetermined → plan_from (length equations.now) equations.now (replicate (length equations.now) false) hidden.now ≡ None }
{
    let mut left = Items::from_slice(alloc, hidden)?;
    let mut taken = Items::from_vec(vec![in alloc; false; equations.len()]?);
    let mut steps = Items::new(alloc);
    for _round in 0..equations.len() {
        let Some(step) = next_step(equations, taken.as_slice(), left.as_slice()) else {
            return Err(PlanFault::Undetermined);
        };
        close(&mut left, step.work);
        taken.set(step.equation as usize, true);
        steps.push(step)?;
    }
    if is_closed(left.as_slice()) {
        Ok(steps)
    } else {
        Err(PlanFault::Undetermined)
    }
}

/// The steps in solving order, or `Undetermined` exactly where the order misses an equation or a field.
pub fn solving_steps(
    alloc: Global,
    equations: &[Equation],
    hidden: &[bool],
) -> Result<Items<SolvingStep>, PlanFault>
    requires fields { All (λ e. All (λ t. IsFieldOf (length hidden.now) t.atom) e.terms) equations.now }
    requires few { length equations.now ≤ 32 }
    requires good { AreGood (length hidden.now) equations.now }
    ensures plan { IfOk result (λ ss. (halves : ℕ → ℤ) → IsPlan halves (length equations.now) equations.now (replicate (length equations.now) false) hidden.now ss) }
    ensures determined { IfOk result (λ _. DeterminesAll (length equations.now) equations.now (replicate (length equations.now) false) hidden.now) }
    ensures whole { IsErrOf result PlanFault.Partial → ⊥ }
    ensures undetermined { IsErrOf result PlanFault.Undetermined → DeterminesAll (length equations.now) equations.now (replicate (length equations.now) false) hidden.now → ⊥ }
{
    match steps_of(alloc, equations, hidden) {
        Ok(steps) => Ok(steps),
        Err(fault) => Err(fault),
    }
}

// The operand of an equation by itself.

ghost use Rattle.std.specs.Prelude.{◌≡◌, ◌+◌, ◌^◌, ◌++◌, ◌∷◌, [], ◌+ℤ◌, pos, negsuc, ℤ, ℕ, length, All, IfOk, filter};
ghost use Rattle.sled_model.specs.Linear.{IsWithin};
ghost use Rattle.sled_model.specs.declared.constructor.Term.{Term};
ghost use Rattle.sled_model.specs.Solved.{is_operand_atom};
ghost use Rattle.eq_solver.specs.Isolated.{turned, others, Gives};

use crate::plan::Value;
use sled_base::NoMemory;
use sled_model::{Atom, Equation, Term};
use sqlite_items::Items;
use std::alloc::Global;

pub fn is_operand_atom(atom: Atom) -> bool
    ensures { result ≡ is_operand_atom atom }
{
    match atom {
        Atom::Name(_) | Atom::Slice { .. } => true,
        Atom::Field(_) | Atom::Signed(_) | Atom::Label(_) => false,
    }
}

fn turned(turn: bool, coefficient: i64) -> i64
    requires { IsWithin (2 ^ 36) coefficient }
    ensures { result ≡ turned turn coefficient }
{
    if turn { -coefficient } else { coefficient }
}

pub fn others(alloc: Global, turn: bool, terms: &[Term]) -> Result<Items<Term>, NoMemory>
    requires { All (λ t. IsWithin (2 ^ 16) t.coefficient) terms.now }
    ensures { IfOk result (λ ts. ts ≡ others turn terms.now) }
{
    let mut found = Items::new(alloc);
    for term in terms {
        if !is_operand_atom(term.atom) {
            found.push(Term {
                coefficient: turned(turn, term.coefficient),
                atom: term.atom,
            })?;
        }
    }
    Ok(found)
}

/// The equation as a value of its operand. The operand counts 1 or, where not `turn`, -1.
pub fn value_of(
    alloc: Global,
    turn: bool,
    target: Atom,
    equation: &Equation,
) -> Result<Value, NoMemory>
    requires small { All (λ t. IsWithin (2 ^ 16) t.coefficient) equation.now.terms }
    requires rest { IsWithin (2 ^ 36) equation.now.rest }
    requires only { filter (λ (t : Term). is_operand_atom t.atom) equation.now.terms ≡ record { coefficient = turned turn (negsuc 0); atom = target } ∷ [] }
    ensures is { IfOk result (λ g. g ≡ record { target = target; terms = others turn equation.now.terms; rest = turned turn equation.now.rest }) }
    ensures gives { IfOk result (Gives equation.now) }
{
    Ok(Value {
        target,
        terms: others(alloc, turn, equation.terms.as_slice())?,
        rest: turned(turn, equation.rest),
    })
}

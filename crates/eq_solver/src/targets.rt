// The value that an equation gives its operand.
ghost use Rattle.std.specs.Prelude.{◌≡◌, ◌≤◌, ◌^◌, ◌+ℤ◌, ◌-ℤ◌, ◌⊎◌, pos, true, ℤ, ℕ, length, All, IfOk, MatchOption, filter, ◌||◌, ◌==◌};
ghost use Rattle.token_bits.specs.Tokens.{AreTokens};
ghost use Rattle.sled_model.specs.declared.constructor.Term.{Term};
ghost use Rattle.sled_model.specs.Linear.{IsWithin};
ghost use Rattle.sled_model.specs.Solved.{is_operand_atom, operand_terms, IsTarget, GivesOperand};
ghost use Rattle.eq_solver.specs.Ranges.{IsInOrder, IsValueOf, IsPlainEquation, IsOnlyUnit};

use crate::isolate::{is_operand_atom, value_of};
use crate::plan::Value;
use crate::ranges::is_in_range;
use sled_base::NoMemory;
use sled_model::{Equation, Term, TermList};
use sqlite_items::Items;
use std::alloc::Global;
use token_bits::Tokens;

fn operand_terms(alloc: Global, equation: &Equation) -> Result<TermList, NoMemory>
    ensures { IfOk result (λ ts. ts ≡ operand_terms equation.now) }
{
    let mut found = Items::new(alloc);
    for term in equation.terms.as_slice() {
        if is_operand_atom(term.atom) {
            found.push(*term)?;
        }
    }
    Ok(found)
}

/// The only term, where its coefficient is 1 or -1.
fn only_unit(terms: &[Term]) -> Option<Term>
    ensures { MatchOption result ((t : Term) → IsOnlyUnit terms.now t → ⊥) (IsOnlyUnit terms.now) }
{
    if terms.len() != 1 {
        return None;
    }
    let term = terms[0];
    if term.coefficient == 1 || term.coefficient == -1 {
        Some(term)
    } else {
        None
    }
}

/// The value of the equation's operand, or None where the equation does not give one, or gives one out of range.
pub fn given_value(
    alloc: Global,
    tokens: &Tokens,
    equation: &Equation,
) -> Result<Option<Value>, NoMemory>
    requires sound { AreTokens tokens.now }
    requires plain { IsPlainEquation equation.now }
    ensures { IfOk result (λ o. MatchOption o (GivesOperand tokens.now equation.now → ⊥) (IsValueOf tokens.now equation.now)) }
{
    let targets = operand_terms(alloc, equation)?;
    match only_unit(targets.as_slice()) {
        None => Ok(None),
        Some(target) => value_in_range(alloc, tokens, equation, target),
    }
}

fn value_in_range(
    alloc: Global,
    tokens: &Tokens,
    equation: &Equation,
    target: Term,
) -> Result<Option<Value>, NoMemory>
    requires sound { AreTokens tokens.now }
    requires plain { IsPlainEquation equation.now }
    requires target { IsTarget equation.now target }
    ensures { IfOk result (λ o. MatchOption o (GivesOperand tokens.now equation.now → ⊥) (IsValueOf tokens.now equation.now)) }
{
    let value = value_of(alloc, target.coefficient == 1, target.atom, equation)?;
    if is_in_range(alloc, tokens, &value)? {
        Ok(Some(value))
    } else {
        Ok(None)
    }
}

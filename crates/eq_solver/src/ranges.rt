// Whether the value that an equation gives its operand is always in range.
ghost use Rattle.std.specs.Prelude.{◌≡◌, ◌≤◌, ◌+◌, ◌^◌, ◌+ℤ◌, pos, false, ℤ, ℕ, length, All, IfOk, MatchBool, ◌&&◌, int_le, int_lt};
ghost use Rattle.token_bits.specs.Tokens.{AreTokens};
ghost use Rattle.sled_model.specs.Equations.{half_of, atom_value, sum_of, IsBetween};
ghost use Rattle.sled_model.specs.Solved.{is_operand_atom, least_value, value_limit};
ghost use Rattle.sled_model.specs.Linear.{IsWithin};
ghost use Rattle.eq_solver.specs.Isolated.{others};
ghost use Rattle.eq_solver.specs.Ranges.{halves_of, still, most_at, label_terms, IsGreatest, StaysInRange, IsGivenTerm, AreGivenTerms, IsInOrder};

use crate::cells::half;
use crate::corners::best;
use crate::isolate::others;
use crate::plan::Value;
use crate::sums::{extended, scaled};
use sled_base::NoMemory;
use sled_model::{Atom, Term, TermList};
use sqlite_items::Items;
use std::alloc::Global;
use token_bits::{FieldId, Tokens};

/// What the fields of a sum are: those of the tokens, or labels that stand as fields.
#[derive(Clone, Copy, Debug, PartialEq, Eq)]
pub enum Unknowns {
    Fields,
    Labels,
}

fn field_half(tokens: &Tokens, number: u32) -> i64
    requires sound { AreTokens tokens.now }
    ensures is { result ≡ half_of tokens.now number }
    ensures within { IsBetween (pos 1) (pos (2 ^ 31 + 1)) result }
{
    half(tokens, number)
}

/// Half of how many values the field has.
fn half_at(tokens: &Tokens, unknowns: Unknowns, number: u32) -> i64
    requires sound { AreTokens tokens.now }
    ensures is { result ≡ halves_of tokens.now unknowns number }
    ensures within { IsBetween (pos 1) (pos (2 ^ 31 + 17)) result }
{
    match unknowns {
        Unknowns::Fields => field_half(tokens, number),
        Unknowns::Labels => (1 << 31) + 16,
    }
}

/// The value of a term's field that gives the terms most.
fn most_value(tokens: &Tokens, unknowns: Unknowns, terms: &[Term], atom: Atom) -> i64
    requires sound { AreTokens tokens.now }
    requires given { AreGivenTerms terms.now }
    requires atom { is_operand_atom atom ≡ false }
    ensures is { result ≡ atom_value (still (halves_of tokens.now unknowns)) (most_at (halves_of tokens.now unknowns) terms.now) atom }
    ensures within { IsWithin (2 ^ 34) result }
{
    match atom {
        Atom::Field(FieldId(number)) => { best(half_at(tokens, unknowns, number), number, terms) }
        Atom::Signed(FieldId(number)) => {
            let half = half_at(tokens, unknowns, number);
            extended(half, best(half, number, terms))
        }
        Atom::Name(_) | Atom::Slice { .. } | Atom::Label(_) => 0,
    }
}

/// The greatest value of what the fields give a sum.
fn most_of(tokens: &Tokens, unknowns: Unknowns, terms: &[Term]) -> i64
    requires sound { AreTokens tokens.now }
    requires given { AreGivenTerms terms.now }
    ensures is { result ≡ sum_of (still (halves_of tokens.now unknowns)) (most_at (halves_of tokens.now unknowns) terms.now) terms.now }
    ensures within { IsWithin (2 ^ 54) result }
{
    let mut total = 0;
    for term in terms {
        total += scaled(
            term.coefficient,
            most_value(tokens, unknowns, terms, term.atom),
        );
    }
    total
}

fn label_terms(alloc: Global, terms: &[Term]) -> Result<TermList, NoMemory>
    ensures { IfOk result (λ ts. ts ≡ label_terms terms.now) }
{
    let mut found = Items::new(alloc);
    for term in terms {
        if let Atom::Label(label) = term.atom {
            found.push(Term {
                coefficient: term.coefficient,
                atom: Atom::Field(FieldId(label)),
            })?;
        }
    }
    Ok(found)
}

/// The greatest value of a sum.
fn greatest(alloc: Global, tokens: &Tokens, terms: &[Term]) -> Result<i64, NoMemory>
    requires sound { AreTokens tokens.now }
    requires given { AreGivenTerms terms.now }
    ensures is { IfOk result (IsGreatest tokens.now terms.now) }
    ensures within { IfOk result (IsWithin (2 ^ 55)) }
{
    let labels = label_terms(alloc, terms)?;
    let of_fields = most_of(tokens, Unknowns::Fields, terms);
    let of_labels = most_of(tokens, Unknowns::Labels, labels.as_slice());
    Ok(of_fields + of_labels)
}

fn least_value(target: Atom) -> i64
    ensures { result ≡ least_value target }
{
    match target {
        Atom::Slice { .. } => 0,
        Atom::Name(_) | Atom::Field(_) | Atom::Signed(_) | Atom::Label(_) => -(1 << 34),
    }
}

fn value_limit(target: Atom) -> i64
    requires { IsInOrder target }
    ensures is { result ≡ value_limit target }
{
    match target {
        Atom::Slice { lo, hi, .. } => 1 << (hi - lo + 1),
        Atom::Name(_) | Atom::Field(_) | Atom::Signed(_) | Atom::Label(_) => 1 << 34,
    }
}

fn is_between(target: Atom, least: i64, most: i64) -> bool
    requires { IsInOrder target }
    ensures { result ≡ (int_le (least_value target) least && int_lt most (value_limit target)) }
{
    least_value(target) <= least && most < value_limit(target)
}

/// Whether the value is one that its target can have, whatever values the fields and the labels have.
pub fn is_in_range(alloc: Global, tokens: &Tokens, value: &Value) -> Result<bool, NoMemory>
    requires sound { AreTokens tokens.now }
    requires target { IsInOrder value.now.target }
    requires given { AreGivenTerms value.now.terms }
    requires rest { IsWithin (2 ^ 36) value.now.rest }
    ensures { IfOk result (λ b. MatchBool b (StaysInRange tokens.now value.now) (StaysInRange tokens.now value.now → ⊥)) }
{
    let opposite = others(alloc, true, value.terms.as_slice())?;
    let most = greatest(alloc, tokens, value.terms.as_slice())?;
    let least = greatest(alloc, tokens, opposite.as_slice())?;
    Ok(is_between(value.target, value.rest - least, most + value.rest))
}

// How many operands, equations and terms there are, and what coefficients, atoms and slices have to be.
ghost use Rattle.std.specs.Prelude.{◌≡◌, ◌≤◌, map, true, length, drop, IfOk};
ghost use Rattle.std.specs.List.{list_all, list_any};
ghost use Rattle.tree_meaning.specs.Names.{is_among};
ghost use Rattle.tree_meaning.specs.NameTables.{table_names};
ghost use Rattle.tree_meaning.specs.Scopes.{declared_in};
ghost use Rattle.operand_meaning.specs.Limits as of;
ghost use Rattle.operand_meaning.specs.Terms.{is_place_in_range, is_term_in_range, is_equation_in_range, have_equations_in_range};

use crate::operands::{is_number, lone_table};
use crate::terms::{sliced_table, terms_of};
use sled_base::NoMemory;
use sled_lexer::{number_in_range, number_value};
use sled_parser::tree::{EqTree, OperandTree, PlaceTree, TermTree};
use std::alloc::Global;
use tree_meaning::{NameTable, Scope};

const MAX_OPERANDS: usize = 16;

const MAX_EQUATIONS: usize = 32;

const MAX_TERMS: usize = 16;

const MAX_COEFFICIENT: u32 = 65_536;

const MAX_BIT: u32 = 31;

/// Condition 11: whether operands, equations and terms are few, coefficients are 1 to 65,536, no atom stands in an equation twice, and
/// slices are of bits 0 to 31 of operands that are sliced everywhere. Each Number is at most 4,294,967,295.
pub fn are_within_limits(
    alloc: Global,
    scope: &Scope<'_>,
    operands: &[OperandTree],
    equations: &[EqTree],
) -> Result<bool, NoMemory>
    requires { have_equations_in_range equations.now ≡ true }
    ensures { IfOk result (λ within. within ≡ of.are_within_limits (declared_in scope.now) operands.now equations.now) }
{
    if operands.len() > MAX_OPERANDS || equations.len() > MAX_EQUATIONS {
        return Ok(false);
    }
    let lone = lone_table(alloc, operands)?;
    let sliced = sliced_table(alloc, equations)?;
    equations_are_within(alloc, scope, &lone, &sliced, equations)
}

fn equations_are_within(
    alloc: Global,
    scope: &Scope<'_>,
    lone: &NameTable<'_>,
    sliced: &NameTable<'_>,
    equations: &[EqTree],
) -> Result<bool, NoMemory>
    requires { have_equations_in_range equations.now ≡ true }
    ensures { IfOk result (λ within. within ≡ list_all (of.equation_is_within (declared_in scope.now) (is_among (table_names lone.now)) (is_among (table_names sliced.now))) equations.now) }
{
    for equation in equations {
        let within = equation_is_within(alloc, scope, lone, sliced, equation)?;
        if !within {
            return Ok(false);
        }
    }
    Ok(true)
}

fn equation_is_within(
    alloc: Global,
    scope: &Scope<'_>,
    lone: &NameTable<'_>,
    sliced: &NameTable<'_>,
    equation: &EqTree,
) -> Result<bool, NoMemory>
    requires { is_equation_in_range equation.now ≡ true }
    ensures { IfOk result (λ within. within ≡ of.equation_is_within (declared_in scope.now) (is_among (table_names lone.now)) (is_among (table_names sliced.now)) equation.now) }
{
    let terms = terms_of(alloc, equation)?;
    Ok(terms_are_within(scope, lone, sliced, terms.as_slice()))
}

fn terms_are_within(
    scope: &Scope<'_>,
    lone: &NameTable<'_>,
    sliced: &NameTable<'_>,
    terms: &[&TermTree],
) -> bool
    requires { list_all is_term_in_range (map (λ x. x.now) terms.now) ≡ true }
    ensures { result ≡ of.terms_are_within (declared_in scope.now) (is_among (table_names lone.now)) (is_among (table_names sliced.now)) (map (λ x. x.now) terms.now) }
{
    if terms.len() > MAX_TERMS {
        return false;
    }
    all_within(scope, lone, sliced, terms) && atoms_differ(terms)
}

fn all_within(
    scope: &Scope<'_>,
    lone: &NameTable<'_>,
    sliced: &NameTable<'_>,
    terms: &[&TermTree],
) -> bool
    ensures { result ≡ list_all (λ x. of.term_is_within (declared_in scope.now) (is_among (table_names lone.now)) (is_among (table_names sliced.now)) x.now) terms.now }
{
    terms
        .iter()
        .all(|term| term_is_within(scope, lone, sliced, *term))
}

fn term_is_within(
    scope: &Scope<'_>,
    lone: &NameTable<'_>,
    sliced: &NameTable<'_>,
    term: &TermTree,
) -> bool
    ensures { result ≡ of.term_is_within (declared_in scope.now) (is_among (table_names lone.now)) (is_among (table_names sliced.now)) term.now }
{
    match term {
        TermTree::Number { .. } => true,
        TermTree::Place {
            coefficient: None,
            place,
            ..
        } => place_is_within(scope, lone, sliced, place),
        TermTree::Place {
            coefficient: Some(coefficient),
            place,
            ..
        } => {
            is_coefficient(coefficient.as_slice()) && place_is_within(scope, lone, sliced, place)
        }
    }
}

fn is_coefficient(number: &[u8]) -> bool
    ensures { result ≡ of.is_coefficient number.now }
{
    match number_in_range(number) {
        Some(value) => 1 <= value && value <= MAX_COEFFICIENT,
        None => false,
    }
}

fn place_is_within(
    scope: &Scope<'_>,
    lone: &NameTable<'_>,
    sliced: &NameTable<'_>,
    place: &PlaceTree,
) -> bool
    ensures { result ≡ of.place_is_within (declared_in scope.now) (is_among (table_names lone.now)) (is_among (table_names sliced.now)) place.now }
{
    match place {
        PlaceTree::Word(word) => !sliced.contains(word.as_slice()),
        PlaceTree::Extended(_) => true,
        PlaceTree::Slice { word, lo, hi } => {
            has_bits(lo.as_slice(), hi.as_slice()) && is_number(scope, lone, word.as_slice())
        }
    }
}

fn has_bits(lo: &[u8], hi: &[u8]) -> bool
    ensures { result ≡ of.has_bits lo.now hi.now }
{
    match (number_in_range(lo), number_in_range(hi)) {
        (Some(lo), Some(hi)) => lo <= hi && hi <= MAX_BIT,
        _ => false,
    }
}

fn atoms_differ(terms: &[&TermTree]) -> bool
    requires { list_all is_term_in_range (map (λ x. x.now) terms.now) ≡ true }
    ensures { result ≡ of.atoms_differ (map (λ x. x.now) terms.now) }
{
    for (i, term) in terms.iter().enumerate() {
        if stands_behind(*term, terms, i + 1) {
            return false;
        }
    }
    true
}

// Whether one of the terms from that place on is of the same atom.
fn stands_behind(term: &TermTree, terms: &[&TermTree], at: usize) -> bool
    requires place { at ≤ length terms.now }
    requires term { is_term_in_range term.now ≡ true }
    requires terms { list_all is_term_in_range (map (λ x. x.now) terms.now) ≡ true }
    ensures { result ≡ list_any (of.same_atom term.now) (drop at (map (λ x. x.now) terms.now)) }
{
    for i in at..terms.len() {
        if same_atom(term, terms[i]) {
            return true;
        }
    }
    false
}

fn same_atom(term: &TermTree, other: &TermTree) -> bool
    requires term { is_term_in_range term.now ≡ true }
    requires other { is_term_in_range other.now ≡ true }
    ensures { result ≡ of.same_atom term.now other.now }
{
    match (term, other) {
        (TermTree::Place { place: one, .. }, TermTree::Place { place: two, .. }) => {
            same_place(one, two)
        }
        _ => false,
    }
}

fn same_place(place: &PlaceTree, other: &PlaceTree) -> bool
    requires place { is_place_in_range place.now ≡ true }
    requires other { is_place_in_range other.now ≡ true }
    ensures { result ≡ of.same_place place.now other.now }
{
    match (place, other) {
        (PlaceTree::Word(one), PlaceTree::Word(two)) => one.as_slice() == two.as_slice(),
        (PlaceTree::Extended(one), PlaceTree::Extended(two)) => one.as_slice() == two.as_slice(),
        (
            PlaceTree::Slice {
                word: one,
                lo: one_lo,
                hi: one_hi,
            },
            PlaceTree::Slice {
                word: two,
                lo: two_lo,
                hi: two_hi,
            },
        ) => {
            one.as_slice() == two.as_slice()
                && number_value(one_lo.as_slice()) == number_value(two_lo.as_slice())
                && number_value(one_hi.as_slice()) == number_value(two_hi.as_slice())
        }
        _ => false,
    }
}

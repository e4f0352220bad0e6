// The terms of equations, and the names in them.
ghost use Rattle.std.specs.Prelude.{◌≡◌, ◌++◌, map, IfOk, OnOk, option_copied};
ghost use Rattle.std.specs.List.{filter_map};
ghost use Rattle.tree_meaning.specs.Names.{is_among};
ghost use Rattle.tree_meaning.specs.NameTables.{table_names};
ghost use Rattle.operand_meaning.specs.Terms as of;

use crate::tables::{push_name, table_of};
use sled_base::NoMemory;
use sled_parser::tree::{EqTree, PlaceTree, TermTree};
use std::alloc::Global;
use tree_meaning::NameTable;

/// The terms of the equation, in written order.
pub fn terms_of<'a>(alloc: Global, equation: &'a EqTree) -> Result<Vec<&'a TermTree>, NoMemory>
    ensures { IfOk result (λ terms. map (λ x. x.now) terms.items ≡ of.equation_terms equation.now) }
{
    let mut terms = Vec::new(alloc);
    push_terms(equation, &mut terms)?;
    Ok(terms)
}

/// Those of each equation.
pub fn terms_in<'a>(alloc: Global, equations: &'a [EqTree]) -> Result<Vec<&'a TermTree>, NoMemory>
    ensures { IfOk result (λ terms. map (λ x. x.now) terms.items ≡ of.terms_in equations.now) }
{
    let mut terms = Vec::new(alloc);
    for equation in equations {
        push_terms(equation, &mut terms)?;
    }
    Ok(terms)
}

fn push_terms<'a>(equation: &'a EqTree, terms: &mut Vec<&'a TermTree>) -> Result<(), NoMemory>
    ensures { OnOk result (map (λ x. x.now) terms.new.items ≡ map (λ x. x.now) terms.old.items ++ of.equation_terms equation.now) }
{
    push_sum(equation.left.terms.as_slice(), terms)?;
    push_sum(equation.right.terms.as_slice(), terms)
}

fn push_sum<'a>(sum: &'a [TermTree], terms: &mut Vec<&'a TermTree>) -> Result<(), NoMemory>
    ensures { OnOk result (map (λ x. x.now) terms.new.items ≡ map (λ x. x.now) terms.old.items ++ sum.now) }
{
    for term in sum {
        terms.push(term)?;
    }
    Ok(())
}

fn place_name(place: &PlaceTree) -> &[u8]
    ensures { result.now ≡ of.place_name place.now }
{
    match place {
        PlaceTree::Word(word) | PlaceTree::Extended(word) => word.as_slice(),
        PlaceTree::Slice { word, .. } => word.as_slice(),
    }
}

fn term_name(term: &TermTree) -> Option<&[u8]>
    ensures { option_copied result ≡ of.term_name term.now }
{
    match term {
        TermTree::Number { .. } => None,
        TermTree::Place { place, .. } => Some(place_name(place)),
    }
}

fn sliced_place(place: &PlaceTree) -> Option<&[u8]>
    ensures { option_copied result ≡ of.sliced_place place.now }
{
    match place {
        PlaceTree::Slice { word, .. } => Some(word.as_slice()),
        _ => None,
    }
}

fn sliced_name(term: &TermTree) -> Option<&[u8]>
    ensures { option_copied result ≡ of.sliced_name term.now }
{
    match term {
        TermTree::Number { .. } => None,
        TermTree::Place { place, .. } => sliced_place(place),
    }
}

// The names in the terms.
fn names_of<'a>(alloc: Global, terms: &[&'a TermTree]) -> Result<Vec<&'a [u8]>, NoMemory>
    ensures { IfOk result (λ names. map (λ x. x.now) names.items ≡ filter_map of.term_name (map (λ x. x.now) terms.now)) }
{
    let mut names = Vec::new(alloc);
    for term in terms {
        push_name(&mut names, term_name(*term))?;
    }
    Ok(names)
}

// The names that stand in slices.
fn sliced_names_of<'a>(alloc: Global, terms: &[&'a TermTree]) -> Result<Vec<&'a [u8]>, NoMemory>
    ensures { IfOk result (λ names. map (λ x. x.now) names.items ≡ filter_map of.sliced_name (map (λ x. x.now) terms.now)) }
{
    let mut names = Vec::new(alloc);
    for term in terms {
        push_name(&mut names, sliced_name(*term))?;
    }
    Ok(names)
}

/// A table of the names in the equations.
pub fn named_table<'a>(alloc: Global, equations: &'a [EqTree]) -> Result<NameTable<'a>, NoMemory>
    ensures { IfOk result (λ table. is_among (table_names table) ≡ is_among (of.names_in equations.now)) }
{
    let terms = terms_in(alloc, equations)?;
    let names = names_of(alloc, terms.as_slice())?;
    table_of(alloc, names.as_slice())
}

/// A table of the names of which the equations have a slice.
pub fn sliced_table<'a>(alloc: Global, equations: &'a [EqTree]) -> Result<NameTable<'a>, NoMemory>
    ensures { IfOk result (λ table. is_among (table_names table) ≡ is_among (of.sliced_names equations.now)) }
{
    let terms = terms_in(alloc, equations)?;
    let names = sliced_names_of(alloc, terms.as_slice())?;
    table_of(alloc, names.as_slice())
}

// Where operands, hidden fields and the names in equations have to stand.
ghost use Rattle.std.specs.Prelude.{◌≡◌, IfOk};
ghost use Rattle.std.specs.List.{list_all};
ghost use Rattle.tree_meaning.specs.Names.{is_among};
ghost use Rattle.tree_meaning.specs.NameTables.{table_names};
ghost use Rattle.tree_meaning.specs.Scopes.{declared_in};
ghost use Rattle.operand_meaning.specs.Standing as of;

use crate::operands::{is_number, lone_table, name_table};
use crate::terms::{named_table, terms_in};
use sled_base::NoMemory;
use sled_parser::tree::{EqTree, OperandTree, PlaceTree, TermTree};
use std::alloc::Global;
use tree_meaning::{NameTable, Scope};

/// Condition 10, where `bound` has the names that the body binds and `labels` its labels: whether each operand that is a field or of a
/// type stands in the body, each one that is a whole number and each hidden field in an equation, and each name in an equation is a
/// whole-number operand, a bare field of the body or a label.
pub fn names_stand(
    alloc: Global,
    scope: &Scope<'_>,
    bound: &NameTable<'_>,
    labels: &NameTable<'_>,
    operands: &[OperandTree],
    equations: &[EqTree],
) -> Result<bool, NoMemory>
    ensures { IfOk result (λ stand. stand ≡ of.names_stand (declared_in scope.now) (table_names bound.now) (table_names labels.now) operands.now equations.now) }
{
    let operands_stand = operands_stand(alloc, scope, bound, operands, equations)?;
    let hidden_stand = hidden_fields_stand(alloc, scope, bound, operands, equations)?;
    let terms_stand = terms_stand(alloc, scope, bound, labels, operands, equations)?;
    Ok(operands_stand && hidden_stand && terms_stand)
}

fn operands_stand(
    alloc: Global,
    scope: &Scope<'_>,
    bound: &NameTable<'_>,
    operands: &[OperandTree],
    equations: &[EqTree],
) -> Result<bool, NoMemory>
    ensures { IfOk result (λ stand. stand ≡ of.operands_stand (declared_in scope.now) (table_names bound.now) operands.now equations.now) }
{
    let named = named_table(alloc, equations)?;
    Ok(all_operands_stand(scope, bound, &named, operands))
}

fn all_operands_stand(
    scope: &Scope<'_>,
    bound: &NameTable<'_>,
    named: &NameTable<'_>,
    operands: &[OperandTree],
) -> bool
    ensures { result ≡ list_all (of.operand_stands (declared_in scope.now) (is_among (table_names bound.now)) (is_among (table_names named.now))) operands.now }
{
    operands
        .iter()
        .all(|operand| operand_stands(scope, bound, named, operand))
}

fn operand_stands(
    scope: &Scope<'_>,
    bound: &NameTable<'_>,
    named: &NameTable<'_>,
    operand: &OperandTree,
) -> bool
    ensures { result ≡ of.operand_stands (declared_in scope.now) (is_among (table_names bound.now)) (is_among (table_names named.now)) operand.now }
{
    match operand {
        OperandTree::Word(word) => {
            if scope.find(word.as_slice()).is_some() {
                bound.contains(word.as_slice())
            } else {
                named.contains(word.as_slice())
            }
        }
        OperandTree::Extended(word) => bound.contains(word.as_slice()),
        OperandTree::Typed { name, .. } => bound.contains(name.as_slice()),
    }
}

fn hidden_fields_stand(
    alloc: Global,
    scope: &Scope<'_>,
    bound: &NameTable<'_>,
    operands: &[OperandTree],
    equations: &[EqTree],
) -> Result<bool, NoMemory>
    ensures { IfOk result (λ stand. stand ≡ of.hidden_fields_stand (declared_in scope.now) (table_names bound.now) operands.now equations.now) }
{
    let names = name_table(alloc, operands)?;
    let named = named_table(alloc, equations)?;
    Ok(all_hidden_stand(scope, &names, &named, bound.as_slice()))
}

fn all_hidden_stand(
    scope: &Scope<'_>,
    operands: &NameTable<'_>,
    named: &NameTable<'_>,
    bound: &[&[u8]],
) -> bool
    ensures { result ≡ list_all (λ x. of.hidden_stands (declared_in scope.now) (is_among (table_names operands.now)) (is_among (table_names named.now)) x.now) bound.now }
{
    bound
        .iter()
        .all(|name| hidden_stands(scope, operands, named, *name))
}

fn hidden_stands(
    scope: &Scope<'_>,
    operands: &NameTable<'_>,
    named: &NameTable<'_>,
    name: &[u8],
) -> bool
    ensures { result ≡ of.hidden_stands (declared_in scope.now) (is_among (table_names operands.now)) (is_among (table_names named.now)) name.now }
{
    let is_hidden = scope.field_named(name).is_some() && !operands.contains(name);
    !is_hidden || named.contains(name)
}

fn terms_stand(
    alloc: Global,
    scope: &Scope<'_>,
    bound: &NameTable<'_>,
    labels: &NameTable<'_>,
    operands: &[OperandTree],
    equations: &[EqTree],
) -> Result<bool, NoMemory>
    ensures { IfOk result (λ stand. stand ≡ of.terms_stand (declared_in scope.now) (table_names bound.now) (table_names labels.now) operands.now equations.now) }
{
    let lone = lone_table(alloc, operands)?;
    let terms = terms_in(alloc, equations)?;
    Ok(all_terms_stand(scope, &lone, labels, bound, terms.as_slice()))
}

fn all_terms_stand(
    scope: &Scope<'_>,
    lone: &NameTable<'_>,
    labels: &NameTable<'_>,
    bound: &NameTable<'_>,
    terms: &[&TermTree],
) -> bool
    ensures { result ≡ list_all (λ x. of.term_stands (declared_in scope.now) (is_among (table_names lone.now)) (is_among (table_names labels.now)) (is_among (table_names bound.now)) x.now) terms.now }
{
    terms
        .iter()
        .all(|term| term_stands(scope, lone, labels, bound, *term))
}

fn term_stands(
    scope: &Scope<'_>,
    lone: &NameTable<'_>,
    labels: &NameTable<'_>,
    bound: &NameTable<'_>,
    term: &TermTree,
) -> bool
    ensures { result ≡ of.term_stands (declared_in scope.now) (is_among (table_names lone.now)) (is_among (table_names labels.now)) (is_among (table_names bound.now)) term.now }
{
    match term {
        TermTree::Number { .. } => true,
        TermTree::Place { place, .. } => place_stands(scope, lone, labels, bound, place),
    }
}

fn place_stands(
    scope: &Scope<'_>,
    lone: &NameTable<'_>,
    labels: &NameTable<'_>,
    bound: &NameTable<'_>,
    place: &PlaceTree,
) -> bool
    ensures { result ≡ of.place_stands (declared_in scope.now) (is_among (table_names lone.now)) (is_among (table_names labels.now)) (is_among (table_names bound.now)) place.now }
{
    match place {
        PlaceTree::Word(word) => word_stands(scope, lone, labels, bound, word.as_slice()),
        PlaceTree::Slice { word, .. } => {
            word_stands(scope, lone, labels, bound, word.as_slice())
        }
        PlaceTree::Extended(word) => is_bare(scope, bound, word.as_slice()),
    }
}

fn word_stands(
    scope: &Scope<'_>,
    lone: &NameTable<'_>,
    labels: &NameTable<'_>,
    bound: &NameTable<'_>,
    word: &[u8],
) -> bool
    ensures { result ≡ of.word_stands (declared_in scope.now) (is_among (table_names lone.now)) (is_among (table_names labels.now)) (is_among (table_names bound.now)) word.now }
{
    is_number(scope, lone, word) || labels.contains(word) || is_bare(scope, bound, word)
}

fn is_bare(scope: &Scope<'_>, bound: &NameTable<'_>, word: &[u8]) -> bool
    ensures { result ≡ of.is_bare (declared_in scope.now) (is_among (table_names bound.now)) word.now }
{
    bound.contains(word) && scope.field_named(word).is_some()
}

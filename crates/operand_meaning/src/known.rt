// Names in equations that are known.
ghost use Rattle.std.specs.Prelude.{◌≡◌, IfOk};
ghost use Rattle.std.specs.List.{list_all};
ghost use Rattle.tree_meaning.specs.Names.{is_among};
ghost use Rattle.tree_meaning.specs.NameTables.{table_names};
ghost use Rattle.tree_meaning.specs.Scopes.{declared_in};
ghost use Rattle.operand_meaning.specs.Operands as of;

use crate::operands::name_table;
use crate::terms::terms_in;
use sled_base::NoMemory;
use sled_parser::tree::{EqTree, OperandTree, PlaceTree, TermTree};
use std::alloc::Global;
use tree_meaning::{NameTable, Scope};

/// Condition 2 of equations: whether each name in them is an operand's name, a label or a declared name, and `!` stands on a field.
pub fn are_equations_known(
    alloc: Global,
    scope: &Scope<'_>,
    labels: &NameTable<'_>,
    operands: &[OperandTree],
    equations: &[EqTree],
) -> Result<bool, NoMemory>
    ensures { IfOk result (λ known. known ≡ of.equations_are_known (declared_in scope.now) (table_names labels.now) operands.now equations.now) }
{
    let names = name_table(alloc, operands)?;
    let terms = terms_in(alloc, equations)?;
    Ok(are_known(scope, &names, labels, terms.as_slice()))
}

fn are_known(
    scope: &Scope<'_>,
    operands: &NameTable<'_>,
    labels: &NameTable<'_>,
    terms: &[&TermTree],
) -> bool
    ensures { result ≡ list_all (λ x. of.is_known_term (declared_in scope.now) (is_among (table_names operands.now)) (is_among (table_names labels.now)) x.now) terms.now }
{
    terms
        .iter()
        .all(|term| is_known_term(scope, operands, labels, *term))
}

fn is_known_term(
    scope: &Scope<'_>,
    operands: &NameTable<'_>,
    labels: &NameTable<'_>,
    term: &TermTree,
) -> bool
    ensures { result ≡ of.is_known_term (declared_in scope.now) (is_among (table_names operands.now)) (is_among (table_names labels.now)) term.now }
{
    match term {
        TermTree::Number { .. } => true,
        TermTree::Place { place, .. } => is_known_place(scope, operands, labels, place),
    }
}

fn is_known_place(
    scope: &Scope<'_>,
    operands: &NameTable<'_>,
    labels: &NameTable<'_>,
    place: &PlaceTree,
) -> bool
    ensures { result ≡ of.is_known_place (declared_in scope.now) (is_among (table_names operands.now)) (is_among (table_names labels.now)) place.now }
{
    match place {
        PlaceTree::Word(word) => is_known_word(scope, operands, labels, word.as_slice()),
        PlaceTree::Slice { word, .. } => is_known_word(scope, operands, labels, word.as_slice()),
        PlaceTree::Extended(word) => scope.field_named(word.as_slice()).is_some(),
    }
}

fn is_known_word(
    scope: &Scope<'_>,
    operands: &NameTable<'_>,
    labels: &NameTable<'_>,
    word: &[u8],
) -> bool
    ensures { result ≡ of.is_known_word (declared_in scope.now) (is_among (table_names operands.now)) (is_among (table_names labels.now)) word.now }
{
    operands.contains(word) || labels.contains(word) || scope.find(word).is_some()
}

// Whether the type that a constructor makes may get one.
ghost use Rattle.std.specs.Prelude.{◌≡◌, not, ◌<◌, length, is_some};
ghost use Rattle.std.specs.List.{list_any};
ghost use Rattle.constructor_meaning.specs.Results as of;
ghost use Rattle.constructor_meaning.specs.Sound.{IsSoundScope};
ghost use Rattle.tree_meaning.specs.Scopes.{declared_in, meaning_of, type_named};
ghost use Rattle.type_tables.specs.Tables.{IsTableOf, is_used_type};

use sled_model::{Spec, TypeId};
use sled_parser::tree::{OperandTree, Spelling};
use tree_meaning::{Meaning, Scope};
use type_tables::TypeTable;

/// Whether the constructor makes no type, or one that may get a constructor: its name is new, or that of a type that is no operand yet.
pub fn result_is_open(
    spec: &Spec,
    types: &TypeTable,
    scope: &Scope<'_>,
    operands: &[OperandTree],
    made: &Option<Spelling>,
) -> bool
    requires sound { IsSoundScope spec.now (declared_in scope.now) }
    requires types { IsTableOf spec.now types.now }
    ensures { result ≡ of.result_is_open spec.now (declared_in scope.now) operands.now made.now }
{
    match made {
        None => true,
        Some(name) => type_is_open(spec, types, scope, operands, name.as_slice()),
    }
}

fn type_is_open(
    spec: &Spec,
    types: &TypeTable,
    scope: &Scope<'_>,
    operands: &[OperandTree],
    name: &[u8],
) -> bool
    requires sound { IsSoundScope spec.now (declared_in scope.now) }
    requires types { IsTableOf spec.now types.now }
    ensures { result ≡ of.type_is_open spec.now (declared_in scope.now) operands.now name.now }
{
    may_make(spec, types, scope, name) && !is_used_by(scope, operands, name)
}

// Whether the name is new, or that of a type that is no operand of a constructor before.
fn may_make(spec: &Spec, types: &TypeTable, scope: &Scope<'_>, name: &[u8]) -> bool
    requires sound { IsSoundScope spec.now (declared_in scope.now) }
    requires types { IsTableOf spec.now types.now }
    ensures { result ≡ of.may_make spec.now (meaning_of (declared_in scope.now) name.now) }
{
    match scope.find(name) {
        None => true,
        Some(Meaning::Type(id)) => !is_used(spec, types, *id),
        Some(_) => false,
    }
}

// Whether a constructor before has an operand of the type.
fn is_used(spec: &Spec, types: &TypeTable, id: TypeId) -> bool
    requires known { id.0 < length spec.now.type_names }
    requires types { IsTableOf spec.now types.now }
    ensures { result ≡ is_used_type spec.now id.0 }
{
    types.is_used(id)
}

fn is_used_by(scope: &Scope<'_>, operands: &[OperandTree], name: &[u8]) -> bool
    ensures { result ≡ list_any (of.uses_type (declared_in scope.now) name.now) operands.now }
{
    operands
        .iter()
        .any(|operand| uses_type(scope, name, operand))
}

fn uses_type(scope: &Scope<'_>, name: &[u8], operand: &OperandTree) -> bool
    ensures { result ≡ of.uses_type (declared_in scope.now) name.now operand.now }
{
    match operand {
        OperandTree::Word(word) => is_type(scope, word.as_slice()) && name == word.as_slice(),
        OperandTree::Extended(_) => false,
        OperandTree::Typed { result, .. } => name == result.as_slice(),
    }
}

fn is_type(scope: &Scope<'_>, word: &[u8]) -> bool
    ensures { result ≡ is_some (type_named (declared_in scope.now) word.now) }
{
    scope.type_named(word).is_some()
}

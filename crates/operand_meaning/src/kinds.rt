// What operands are.
ghost use Rattle.std.specs.Prelude.{◌≡◌, Some, None, is_some, IfOk, if◌then◌else◌};
ghost use Rattle.std.specs.List.{list_all, filter_map};
ghost use Rattle.tree_meaning.specs.Names.{is_among};
ghost use Rattle.tree_meaning.specs.NameTables.{table_names};
ghost use Rattle.tree_meaning.specs.Scopes.{declared_in};
ghost use Rattle.operand_meaning.specs.Operands as of;

use crate::terms::sliced_table;
use sled_base::NoMemory;
use sled_model::{KindList, OperandKind};
use sled_parser::tree::{EqTree, OperandTree};
use std::alloc::Global;
use tree_meaning::{Meaning, NameTable, Scope};

/// What each operand of a constructor with these equations is: `None` exactly where one is nothing, so that condition 2 is unmet.
pub fn operand_kinds(
    alloc: Global,
    scope: &Scope<'_>,
    operands: &[OperandTree],
    equations: &[EqTree],
) -> Result<Option<KindList>, NoMemory>
    ensures { IfOk result (λ kinds. kinds ≡ (if of.operands_are_known (declared_in scope.now) equations.now operands.now then Some (of.operand_kinds (declared_in scope.now) equations.now operands.now) else None)) }
{
    let sliced = sliced_table(alloc, equations)?;
    kinds_over(alloc, scope, &sliced, operands)
}

fn kinds_over(
    alloc: Global,
    scope: &Scope<'_>,
    sliced: &NameTable<'_>,
    operands: &[OperandTree],
) -> Result<Option<KindList>, NoMemory>
    ensures { IfOk result (λ kinds. kinds ≡ (if list_all (λ o. is_some (of.kind_over (declared_in scope.now) (is_among (table_names sliced.now)) o)) operands.now then Some (filter_map (of.kind_over (declared_in scope.now) (is_among (table_names sliced.now))) operands.now) else None)) }
{
    let mut kinds = KindList::new(alloc);
    for operand in operands {
        let Some(kind) = kind_over(scope, sliced, operand) else {
            return Ok(None);
        };
        kinds.push(kind)?;
    }
    Ok(Some(kinds))
}

fn kind_over(
    scope: &Scope<'_>,
    sliced: &NameTable<'_>,
    operand: &OperandTree,
) -> Option<OperandKind>
    ensures { result ≡ of.kind_over (declared_in scope.now) (is_among (table_names sliced.now)) operand.now }
{
    match operand {
        OperandTree::Word(word) => match scope.find(word.as_slice()) {
            Some(meaning) => declared_kind(meaning),
            None => Some(number_kind(sliced.contains(word.as_slice()))),
        },
        OperandTree::Extended(word) => {
            Some(OperandKind::Extended(scope.field_named(word.as_slice())?))
        }
        OperandTree::Typed { result, .. } => {
            Some(OperandKind::Typed(scope.type_named(result.as_slice())?))
        }
    }
}

fn declared_kind(meaning: &Meaning) -> Option<OperandKind>
    ensures { result ≡ of.declared_kind meaning.now }
{
    match meaning {
        Meaning::Field(field) => Some(OperandKind::Plain(*field)),
        Meaning::Type(id) => Some(OperandKind::Typed(*id)),
        _ => None,
    }
}

fn number_kind(is_sliced: bool) -> OperandKind
    ensures { result ≡ (if is_sliced then OperandKind.Sliced else OperandKind.Whole) }
{
    if is_sliced {
        OperandKind::Sliced
    } else {
        OperandKind::Whole
    }
}

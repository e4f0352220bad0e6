// Whether the names of a constructor are declared once.
ghost use Rattle.std.specs.Prelude.{◌≡◌, ◌++◌, ◌&&◌, [], not, map, IfOk, OnOk, List, ℕ};
ghost use Rattle.std.specs.List.{list_all, flat_map};
ghost use Rattle.constructor_scopes.specs.Names as of;
ghost use Rattle.operand_meaning.specs.Operands.{operand_names as names_of, explicit_names as explicit_names_of};
ghost use Rattle.sled_model.specs.Specs.{IsSpec, constructor_names_of};
ghost use Rattle.tree_meaning.specs.Names.{is_among, are_new, are_distinct};
ghost use Rattle.tree_meaning.specs.NameTables.{table_names};
ghost use Rattle.tree_meaning.specs.Parts.{parts as parts_in, labels as labels_of};
ghost use Rattle.tree_meaning.specs.Scopes.{declared_in};

use crate::labels::push_labels;
use operand_meaning::{explicit_names, operand_names};
use sled_base::NoMemory;
use sled_model::Spec;
use sled_parser::tree::{OperandTree, PatternTree};
use std::alloc::Global;
use tree_meaning::{NameTable, Scope, are_declared_once};

/// Whether the constructors of these names are new to the description, and differ.
pub fn have_new_names(alloc: Global, spec: &Spec, names: &[&[u8]]) -> Result<bool, NoMemory>
    requires { IsSpec spec.now }
    ensures { IfOk result (λ new. new ≡ of.have_new_names spec.now (map (λ x. x.now) names.now)) }
{
    if !are_unknown(spec, names) {
        return Ok(false);
    }
    differ(alloc, names)
}

fn are_unknown(spec: &Spec, names: &[&[u8]]) -> bool
    requires { IsSpec spec.now }
    ensures { result ≡ list_all (λ x. not (is_among (constructor_names_of spec.now) x.now)) names.now }
{
    names.iter().all(|name| !is_known(spec, *name))
}

fn is_known(spec: &Spec, name: &[u8]) -> bool
    requires { IsSpec spec.now }
    ensures { result ≡ is_among (constructor_names_of spec.now) name.now }
{
    spec.find(name).is_some()
}

// Whether no name stands twice.
fn differ(alloc: Global, names: &[&[u8]]) -> Result<bool, NoMemory>
    ensures { IfOk result (λ differ. differ ≡ are_distinct (map (λ x. x.now) names.now)) }
{
    let none = NameTable::new(alloc);
    let once = are_declared_once(alloc, &none, names)?;
    Ok(once)
}

/// Whether the operands and the labels of a constructor have different names, and no label and no name before a type is a declared name.
pub fn have_local_names(
    alloc: Global,
    scope: &Scope<'_>,
    operands: &[OperandTree],
    body: &PatternTree,
    parts: &[&PatternTree],
) -> Result<bool, NoMemory>
    requires { map (λ x. x.now) parts.now ≡ parts_in body.now }
    ensures { IfOk result (λ once. once ≡ of.have_local_names (declared_in scope.now) operands.now body.now) }
{
    let names = local_names(alloc, operands, body, parts)?;
    if !differ(alloc, names.as_slice())? {
        return Ok(false);
    }
    let fresh = fresh_names(alloc, operands, body, parts)?;
    Ok(are_undeclared(&scope.names, fresh.as_slice()))
}

// The names of the operands and the labels.
fn local_names<'a>(
    alloc: Global,
    operands: &'a [OperandTree],
    body: &PatternTree,
    parts: &[&'a PatternTree],
) -> Result<Vec<&'a [u8]>, NoMemory>
    requires { map (λ x. x.now) parts.now ≡ parts_in body.now }
    ensures { IfOk result (λ names. map (λ x. x.now) names.items ≡ names_of operands.now ++ labels_of body.now) }
{
    let mut names = operand_names(alloc, operands)?;
    push_labels(&mut names, parts)?;
    Ok(names)
}

// The names before a type, and the labels.
fn fresh_names<'a>(
    alloc: Global,
    operands: &'a [OperandTree],
    body: &PatternTree,
    parts: &[&'a PatternTree],
) -> Result<Vec<&'a [u8]>, NoMemory>
    requires { map (λ x. x.now) parts.now ≡ parts_in body.now }
    ensures { IfOk result (λ names. map (λ x. x.now) names.items ≡ explicit_names_of operands.now ++ labels_of body.now) }
{
    let mut names = explicit_names(alloc, operands)?;
    push_labels(&mut names, parts)?;
    Ok(names)
}

fn are_undeclared(declared: &NameTable<'_>, names: &[&[u8]]) -> bool
    ensures { result ≡ list_all (λ x. not (is_among (table_names declared.now) x.now)) names.now }
{
    names.iter().all(|name| !declared.contains(*name))
}

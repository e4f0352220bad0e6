// The names of operands.
ghost use Rattle.std.specs.Prelude.{◌≡◌, map, IfOk, option_copied};
ghost use Rattle.tree_meaning.specs.Names.{is_among};
ghost use Rattle.tree_meaning.specs.NameTables.{table_names};
ghost use Rattle.tree_meaning.specs.Scopes.{declared_in};
ghost use Rattle.operand_meaning.specs.Operands as of;

use crate::tables::{push_name, table_of};
use sled_base::NoMemory;
use sled_parser::tree::OperandTree;
use std::alloc::Global;
use tree_meaning::{NameTable, Scope};

/// The name of an operand.
pub fn operand_name(operand: &OperandTree) -> &[u8]
    ensures { result.now ≡ of.operand_name operand.now }
{
    match operand {
        OperandTree::Word(name) | OperandTree::Extended(name) => name.as_slice(),
        OperandTree::Typed { name, .. } => name.as_slice(),
    }
}

/// The name of each operand, in order.
pub fn operand_names<'a>(
    alloc: Global,
    operands: &'a [OperandTree],
) -> Result<Vec<&'a [u8]>, NoMemory>
    ensures { IfOk result (λ names. map (λ x. x.now) names.items ≡ of.operand_names operands.now) }
{
    let mut names = Vec::new(alloc);
    for operand in operands {
        names.push(operand_name(operand))?;
    }
    Ok(names)
}

fn explicit_name(operand: &OperandTree) -> Option<&[u8]>
    ensures { option_copied result ≡ of.explicit_name operand.now }
{
    match operand {
        OperandTree::Typed { name, .. } => Some(name.as_slice()),
        _ => None,
    }
}

/// The names of the operands whose type is written, in order.
pub fn explicit_names<'a>(
    alloc: Global,
    operands: &'a [OperandTree],
) -> Result<Vec<&'a [u8]>, NoMemory>
    ensures { IfOk result (λ names. map (λ x. x.now) names.items ≡ of.explicit_names operands.now) }
{
    let mut names = Vec::new(alloc);
    for operand in operands {
        push_name(&mut names, explicit_name(operand))?;
    }
    Ok(names)
}

fn lone_word(operand: &OperandTree) -> Option<&[u8]>
    ensures { option_copied result ≡ of.lone_word operand.now }
{
    match operand {
        OperandTree::Word(word) => Some(word.as_slice()),
        _ => None,
    }
}

/// The names of the operands that are a lone word, in order.
pub fn lone_words<'a>(alloc: Global, operands: &'a [OperandTree]) -> Result<Vec<&'a [u8]>, NoMemory>
    ensures { IfOk result (λ names. map (λ x. x.now) names.items ≡ of.lone_words operands.now) }
{
    let mut names = Vec::new(alloc);
    for operand in operands {
        push_name(&mut names, lone_word(operand))?;
    }
    Ok(names)
}

/// A table of the names of the operands.
pub fn name_table<'a>(alloc: Global, operands: &'a [OperandTree]) -> Result<NameTable<'a>, NoMemory>
    ensures { IfOk result (λ table. is_among (table_names table) ≡ is_among (of.operand_names operands.now)) }
{
    let names = operand_names(alloc, operands)?;
    table_of(alloc, names.as_slice())
}

/// A table of the names of the operands that are a lone word.
pub fn lone_table<'a>(alloc: Global, operands: &'a [OperandTree]) -> Result<NameTable<'a>, NoMemory>
    ensures { IfOk result (λ table. is_among (table_names table) ≡ is_among (of.lone_words operands.now)) }
{
    let names = lone_words(alloc, operands)?;
    table_of(alloc, names.as_slice())
}

/// Whether the name is that of a lone word and was not declared.
pub fn is_number(scope: &Scope<'_>, lone: &NameTable<'_>, word: &[u8]) -> bool
    ensures { result ≡ of.is_number (declared_in scope.now) (is_among (table_names lone.now)) word.now }
{
    scope.find(word).is_none() && lone.contains(word)
}

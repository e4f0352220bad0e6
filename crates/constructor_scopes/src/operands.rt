// The scope of a constructor's body.
ghost use Rattle.std.specs.Prelude.{◌≡◌, ◌++◌, ◌∷◌, [], ◌+◌, map, true, false, IfOk, OnOk};
ghost use Rattle.constructor_scopes.specs.Bodies as of;
ghost use Rattle.operand_meaning.specs.Operands.{operand_names};
ghost use Rattle.tree_meaning.specs.Names.{is_among, are_distinct};
ghost use Rattle.tree_meaning.specs.Scopes.{declared_in};

use operand_meaning::operand_name;
use sled_base::NoMemory;
use sled_model::{Pattern, TypeId};
use sled_parser::tree::OperandTree;
use std::alloc::Global;
use tree_meaning::{Meaning, Scope};

// The type of a typed operand.
fn operand_type(scope: &Scope<'_>, operand: &OperandTree) -> Option<TypeId>
    ensures { result ≡ of.operand_type (declared_in scope.now) operand.now }
{
    match operand {
        OperandTree::Word(word) => scope.type_named(word.as_slice()),
        OperandTree::Extended(_) => None,
        OperandTree::Typed { result, .. } => scope.type_named(result.as_slice()),
    }
}

// The typed operands, each with its number. `NoMemory` also where a number has more than 32 bits.
fn typed_operands<'a>(
    alloc: Global,
    scope: &Scope<'_>,
    operands: &'a [OperandTree],
) -> Result<Vec<(&'a [u8], u32)>, NoMemory>
    ensures { IfOk result (λ found. map (λ n. (n.0.now, n.1)) found.items ≡ of.typed_operands (declared_in scope.now) operands.now) }
{
    let mut found = Vec::new(alloc);
    for (number, operand) in operands.iter().enumerate() {
        push_typed(&mut found, scope, operand, number)?;
    }
    Ok(found)
}

fn push_typed<'a>(
    found: &mut Vec<(&'a [u8], u32)>,
    scope: &Scope<'_>,
    operand: &'a OperandTree,
    number: usize,
) -> Result<(), NoMemory>
    ensures { OnOk result (map (λ n. (n.0.now, n.1)) found.new.items ≡ map (λ n. (n.0.now, n.1)) found.old.items ++ of.if_typed operand.now number (of.operand_type (declared_in scope.now) operand.now)) }
{
    if operand_type(scope, operand).is_none() {
        return Ok(());
    }
    let Ok(number) = u32::try_from(number) else {
        return Err(NoMemory);
    };
    found.push((operand_name(operand), number))?;
    Ok(())
}

/// Lets the name of each typed operand stand for the operand, as in a body. No operands have the same name.
pub fn enter_operands<'a>(
    alloc: Global,
    scope: &mut Scope<'a>,
    operands: &'a [OperandTree],
) -> Result<(), NoMemory>
    requires names { (declared_in scope.old).local_names ≡ [] }
    requires meanings { (declared_in scope.old).local_meanings ≡ [] }
    requires distinct { are_distinct (operand_names operands.now) ≡ true }
    ensures { OnOk result (declared_in scope.new ≡ of.with_operands (declared_in scope.old) operands.now) }
{
    let found = typed_operands(alloc, scope, operands)?;
    enter_all(scope, found.as_slice())?;
    Ok(())
}

// Lets each of the names stand for the operand of its number.
fn enter_all<'a>(scope: &mut Scope<'a>, typed: &[(&'a [u8], u32)]) -> Result<(), NoMemory>
    requires names { (declared_in scope.old).local_names ≡ [] }
    requires meanings { (declared_in scope.old).local_meanings ≡ [] }
    requires distinct { are_distinct (map (λ n. n.0.now) typed.now) ≡ true }
    ensures { OnOk result (declared_in scope.new ≡ record (declared_in scope.old) { local_names = map (λ n. n.0.now) typed.now; local_meanings = map (λ n. Meaning.Operand n.1) typed.now }) }
{
    for named in typed {
        scope.enter(named.0, Meaning::Operand(named.1))?;
    }
    Ok(())
}

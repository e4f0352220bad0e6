// The constructors that a declaration makes.
ghost use Rattle.std.specs.Prelude.{◌≡◌, ◌<◌, ◌^◌, true, map, length, IfOk, None};
ghost use Rattle.constructor_building.specs.Building as of;
ghost use Rattle.constructor_meaning.specs.Conditions.{conditions};
ghost use Rattle.constructor_meaning.specs.Constructing.{constructing};
ghost use Rattle.constructor_meaning.specs.Draft.{IsDraftOf};
ghost use Rattle.constructor_meaning.specs.Read.{IsReadingOf};
ghost use Rattle.constructor_meaning.specs.Unmet.{first_unmet};
ghost use Rattle.operand_meaning.specs.Limits.{are_within_limits};
ghost use Rattle.operand_meaning.specs.Operands.{operand_names};
ghost use Rattle.operand_meaning.specs.Terms.{have_equations_in_range};
ghost use Rattle.tree_meaning.specs.NameTables.{table_names};
ghost use Rattle.tree_meaning.specs.Scopes.{declared_in};

use crate::naming::result_type;
use constructor_meaning::{ConstructorTree, Draft, Reading};
use constructor_scopes::made_names;
use operand_meaning::{equations_of, operand_name};
use sled_base::NoMemory;
use sled_model::{Constructor, ConstructorList, KindList, Name, NameList, Pattern, Spec, TypeId};
use sled_parser::tree::OperandTree;
use std::alloc::Global;
use tree_meaning::Scope;

/// The constructors that the declaration makes, in order. `NoMemory` also where a number is wanting for a type or for a label.
pub fn constructors_of(
    alloc: Global,
    spec: &Spec,
    scope: &Scope<'_>,
    tree: &ConstructorTree<'_>,
    draft: &Draft<'_>,
) -> Result<ConstructorList, NoMemory>
    requires draft { IsDraftOf spec.now (declared_in scope.now) (constructing tree.now) draft.now }
    requires met { first_unmet (conditions spec.now (declared_in scope.now) (constructing tree.now)) ≡ None }
    requires numbers { have_equations_in_range tree.now.equations.now ≡ true }
    ensures { IfOk result (λ made. made ≡ of.constructors_of spec.now (declared_in scope.now) (constructing tree.now)) }
{
    let reading = &draft.reading;
    if reading.labels.len() > u32::MAX as usize {
        return Err(NoMemory);
    }
    let result_type = result_type(spec, scope, tree.result)?;
    let names = made_names(alloc, &reading.makings)?;
    let bodies = reading.body.bodies.as_slice();
    let made = each_with(
        alloc,
        scope,
        tree,
        reading,
        result_type,
        names.as_slice(),
        bodies,
    )?;
    Ok(made)
}

// One for each name, with the body beside it.
fn each_with(
    alloc: Global,
    scope: &Scope<'_>,
    tree: &ConstructorTree<'_>,
    reading: &Reading<'_>,
    result_type: Option<TypeId>,
    names: &[&[u8]],
    bodies: &[Pattern],
) -> Result<ConstructorList, NoMemory>
    requires reading { IsReadingOf (declared_in scope.now) (constructing tree.now) reading.now }
    requires limits { are_within_limits (declared_in scope.now) tree.now.operands.now tree.now.equations.now ≡ true }
    requires numbers { have_equations_in_range tree.now.equations.now ≡ true }
    requires labels { length (table_names reading.now.labels) < 2 ^ 32 }
    ensures { IfOk result (λ made. made ≡ of.each_with (declared_in scope.now) (constructing tree.now) result_type (map (λ x. x.now) names.now) bodies.now) }
{
    let mut made = ConstructorList::new(alloc);
    let count = names.len().min(bodies.len());
    for i in 0..count {
        made.push(constructor_with(
            alloc,
            scope,
            tree,
            reading,
            result_type,
            names[i],
            &bodies[i],
        )?)?;
    }
    Ok(made)
}

// The constructor of this name and this body.
fn constructor_with(
    alloc: Global,
    scope: &Scope<'_>,
    tree: &ConstructorTree<'_>,
    reading: &Reading<'_>,
    result_type: Option<TypeId>,
    name: &[u8],
    body: &Pattern,
) -> Result<Constructor, NoMemory>
    requires reading { IsReadingOf (declared_in scope.now) (constructing tree.now) reading.now }
    requires limits { are_within_limits (declared_in scope.now) tree.now.operands.now tree.now.equations.now ≡ true }
    requires numbers { have_equations_in_range tree.now.equations.now ≡ true }
    requires labels { length (table_names reading.now.labels) < 2 ^ 32 }
    ensures { IfOk result (λ made. made ≡ of.constructor_with (declared_in scope.now) (constructing tree.now) result_type name.now body.now) }
{
    let (operands, equations) = (tree.operands.as_slice(), tree.equations.as_slice());
    let name = Name::from_slice(alloc, name)?;
    let kinds = KindList::from_slice(alloc, reading.kinds.as_slice())?;
    let names = names_of(alloc, operands)?;
    let equations = equations_of(alloc, scope, &reading.labels, operands, equations)?;
    Ok(Constructor {
        name,
        result: result_type,
        operands: kinds,
        names,
        equations,
        body: body.copy(alloc)?,
    })
}

// The name of each operand, in order.
fn names_of(alloc: Global, operands: &[OperandTree]) -> Result<NameList, NoMemory>
    ensures { IfOk result (λ names. names ≡ operand_names operands.now) }
{
    let mut names = NameList::new(alloc);
    for operand in operands {
        names.push(Name::from_slice(alloc, operand_name(operand))?)?;
    }
    Ok(names)
}

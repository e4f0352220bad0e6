// The addition of a declaration's constructors to a description.
ghost use Rattle.std.specs.Prelude.{◌≡◌, ◌∷◌, [], All, OnOk, IfOk, None, true, map, length, reverse};
ghost use Rattle.std.specs.Option.{option_copied, ForSome};
ghost use Rattle.constructor_building.specs.Building as of;
ghost use Rattle.constructor_meaning.specs.Conditions.{conditions};
ghost use Rattle.constructor_meaning.specs.Constructing.{constructing};
ghost use Rattle.constructor_meaning.specs.Draft.{IsDraftOf};
ghost use Rattle.constructor_meaning.specs.Sound.{IsSoundScope};
ghost use Rattle.constructor_meaning.specs.Unmet.{first_unmet};
ghost use Rattle.constructor_scopes.specs.Names.{have_new_names};
ghost use Rattle.operand_meaning.specs.Terms.{have_equations_in_range};
ghost use Rattle.sled_model.specs.Specs.{IsSpec, IsConstructorOf, IsNewConstructorName};
ghost use Rattle.tree_meaning.specs.Scopes.{declared_in, meaning_of};
ghost use Rattle.type_tables.specs.Tables.{IsTableOf};

use crate::making::constructors_of;
use crate::naming::{add_type, new_type};
use constructor_meaning::{ConstructorTree, Draft};
use sled_base::NoMemory;
use sled_model::{Constructor, ConstructorList, Spec};
use std::alloc::Global;
use tree_meaning::Scope;
use type_tables::TypeTable;

/// Adds the constructors of a declaration that meets each condition which is asked before its equations are solved, and the type that
/// it makes where its name is new. On `NoMemory` a part of them is added, and nothing is said of the description, the table and the scope.
pub fn add_constructors<'a>(
    alloc: Global,
    spec: &mut Spec,
    types: &mut TypeTable,
    scope: &mut Scope<'a>,
    tree: &ConstructorTree<'a>,
    draft: Draft<'a>,
) -> Result<(), NoMemory>
    requires sound { IsSoundScope spec.old (declared_in scope.old) }
    requires types { IsTableOf spec.old types.old }
    requires draft { IsDraftOf spec.old (declared_in scope.old) (constructing tree.now) draft }
    requires met { first_unmet (conditions spec.old (declared_in scope.old) (constructing tree.now)) ≡ None }
    requires numbers { have_equations_in_range tree.now.equations.now ≡ true }
    ensures spec { OnOk result (spec.new ≡ of.built_spec spec.old (declared_in scope.old) (constructing tree.now)) }
    ensures names { OnOk result (declared_in scope.new ≡ of.built_declared spec.old (declared_in scope.old) (constructing tree.now)) }
    ensures sound { OnOk result (IsSoundScope spec.new (declared_in scope.new)) }
    ensures types { OnOk result (IsTableOf spec.new types.new) }
{
    let constructors = constructors_of(alloc, spec, scope, tree, &draft)?;
    let named = new_type(scope, tree.result);
    add_new_type(alloc, spec, types, scope, named)?;
    add_each(alloc, spec, types, constructors)?;
    Ok(())
}

// Adds the type of this name, where there is one.
fn add_new_type<'a>(
    alloc: Global,
    spec: &mut Spec,
    types: &mut TypeTable,
    scope: &mut Scope<'a>,
    named: Option<&'a [u8]>,
) -> Result<(), NoMemory>
    requires sound { IsSoundScope spec.old (declared_in scope.old) }
    requires types { IsTableOf spec.old types.old }
    requires fresh { ForSome named (λ name. meaning_of (declared_in scope.old) name.now ≡ None) }
    ensures spec { OnOk result (spec.new ≡ of.with_new_type spec.old (option_copied named.entry)) }
    ensures names { OnOk result (declared_in scope.new ≡ of.naming_new_type spec.old (declared_in scope.old) (option_copied named.entry)) }
    ensures sound { OnOk result (IsSoundScope spec.new (declared_in scope.new)) }
    ensures types { OnOk result (IsTableOf spec.new types.new) }
{
    match named {
        Some(name) => add_type(alloc, spec, types, scope, name),
        None => Ok(()),
    }
}

// Adds constructors with new names.
fn add_each(
    alloc: Global,
    spec: &mut Spec,
    types: &mut TypeTable,
    constructors: ConstructorList,
) -> Result<(), NoMemory>
    requires sound { IsSpec spec.old }
    requires types { IsTableOf spec.old types.old }
    requires fresh { have_new_names spec.old (map (λ c. c.name) constructors) ≡ true }
    requires known { All (IsConstructorOf spec.old.tokens (length spec.old.type_names)) constructors }
    ensures spec { OnOk result (spec.new ≡ of.with_constructors spec.old constructors) }
    ensures sound { OnOk result (IsSpec spec.new) }
    ensures types { OnOk result (IsTableOf spec.new types.new) }
{
    let mut left = reversed(alloc, constructors)?;
    while let Some(constructor) = left.pop() {
        add_one(alloc, spec, types, constructor)?;
    }
    Ok(())
}

// The constructors, the last of them first.
fn reversed(alloc: Global, constructors: ConstructorList) -> Result<ConstructorList, NoMemory>
    ensures { IfOk result (λ turned. turned ≡ reverse constructors) }
{
    let mut left = constructors;
    let mut turned = ConstructorList::new(alloc);
    while let Some(constructor) = left.pop() {
        turned.push(constructor)?;
    }
    Ok(turned)
}

// Adds a constructor with a new name.
fn add_one(
    alloc: Global,
    spec: &mut Spec,
    types: &mut TypeTable,
    constructor: Constructor,
) -> Result<(), NoMemory>
    requires sound { IsSpec spec.old }
    requires types { IsTableOf spec.old types.old }
    requires fresh { IsNewConstructorName spec.old constructor.name }
    requires known { IsConstructorOf spec.old.tokens (length spec.old.type_names) constructor }
    ensures spec { OnOk result (spec.new ≡ of.with_constructors spec.old (constructor ∷ [])) }
    ensures sound { OnOk result (IsSpec spec.new) }
    ensures types { OnOk result (IsTableOf spec.new types.new) }
{
    let kinds = constructor.operands.as_slice();
    let measures = types.measure(alloc, &spec.tokens, kinds, &constructor.body)?;
    types.add_constructor(constructor.result, kinds, measures)?;
    spec.add_constructor(constructor)?;
    Ok(())
}

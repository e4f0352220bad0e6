// The type that the constructors of a declaration make.
ghost use Rattle.std.specs.Prelude.{◌≡◌, OnOk, IfOk, Some, None};
ghost use Rattle.std.specs.Option.{option_copied};
ghost use Rattle.constructor_building.specs.Building as of;
ghost use Rattle.constructor_meaning.specs.Sound.{IsSoundScope};
ghost use Rattle.tree_meaning.specs.Scopes.{declared_in, meaning_of};
ghost use Rattle.type_tables.specs.Tables.{IsTableOf};

use sled_base::NoMemory;
use sled_model::{Name, Spec, TypeId};
use sled_parser::tree::Spelling;
use std::alloc::Global;
use tree_meaning::{Meaning, Scope};
use type_tables::TypeTable;

/// The type that the constructors make, where one is written. `NoMemory` also where every number is taken.
pub fn result_type(
    spec: &Spec,
    scope: &Scope<'_>,
    written: &Option<Spelling>,
) -> Result<Option<TypeId>, NoMemory>
    ensures { IfOk result (λ made. made ≡ of.result_type spec.now (declared_in scope.now) written.now) }
{
    match written {
        None => Ok(None),
        Some(name) => {
            let made = type_of(spec, scope, name.as_slice())?;
            Ok(Some(made))
        }
    }
}

fn type_of(spec: &Spec, scope: &Scope<'_>, name: &[u8]) -> Result<TypeId, NoMemory>
    ensures { IfOk result (λ made. Some made ≡ of.result_type spec.now (declared_in scope.now) (Some name.now)) }
{
    match scope.type_named(name) {
        Some(id) => Ok(id),
        None => next_type(spec),
    }
}

fn next_type(spec: &Spec) -> Result<TypeId, NoMemory>
    ensures { IfOk result (λ id. id ≡ of.next_type spec.now) }
{
    let Ok(number) = u32::try_from(spec.type_names.len()) else {
        return Err(NoMemory);
    };
    Ok(TypeId(number))
}

/// The name of the type that is declared by the way: of the one that is written, where its name stands for no type yet.
pub fn new_type<'a>(scope: &Scope<'_>, written: &'a Option<Spelling>) -> Option<&'a [u8]>
    ensures { option_copied result ≡ of.new_type (declared_in scope.now) written.now }
{
    match written {
        None => None,
        Some(name) => if_new(scope, name.as_slice()),
    }
}

fn if_new<'a>(scope: &Scope<'_>, name: &'a [u8]) -> Option<&'a [u8]>
    ensures { option_copied result ≡ of.new_type (declared_in scope.now) (Some name.now) }
{
    if scope.type_named(name).is_some() {
        None
    } else {
        Some(name)
    }
}

/// Adds a type of this name, which stands for nothing yet. On `NoMemory` a part of it is added, and nothing is said of any of them.
pub fn add_type<'a>(
    alloc: Global,
    spec: &mut Spec,
    types: &mut TypeTable,
    scope: &mut Scope<'a>,
    name: &'a [u8],
) -> Result<(), NoMemory>
    requires sound { IsSoundScope spec.old (declared_in scope.old) }
    requires types { IsTableOf spec.old types.old }
    requires fresh { meaning_of (declared_in scope.old) name.now ≡ None }
    ensures spec { OnOk result (spec.new ≡ of.with_new_type spec.old (Some name.now)) }
    ensures names { OnOk result (declared_in scope.new ≡ of.naming_new_type spec.old (declared_in scope.old) (Some name.now)) }
    ensures sound { OnOk result (IsSoundScope spec.new (declared_in scope.new)) }
    ensures types { OnOk result (IsTableOf spec.new types.new) }
{
    types.add_type(alloc)?;
    let id = spec.add_type(Name::from_slice(alloc, name)?)?;
    scope.declare(name, Meaning::Type(id))?;
    Ok(())
}

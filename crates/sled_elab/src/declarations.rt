// What declarations make, one after another.
ghost use Rattle.std.specs.Prelude.{◌≡◌, ◌<◌, ◌^◌, All, None, IfOk, IfErr};
ghost use Rattle.sled_elab.specs.Conditions.{IsLackOf, IsDescriptionLack, next_number as next_number_of};
ghost use Rattle.sled_elab.specs.Descriptions.{described_in, HasNumbersInRange, HasPlainNames, IsReadOnce, IsSound};
ghost use Rattle.sled_elab.specs.Elaboration.{after, described, spec_of};
ghost use Rattle.sled_elab.specs.Refusals.{IsRefusedBy};
ghost use Rattle.tree_meaning.specs.Scopes.{declared_in};
ghost use Rattle.type_tables.specs.Tables.{IsTableOf};

use crate::class::declare_class;
use crate::constructor::declare_constructor;
use crate::definition::declare_definition;
use crate::description::Description;
use crate::fault::ElabFault;
use constructor_meaning::ConstructorTree;
use sled_base::NoMemory;
use sled_model::Spec;
use sled_parser::tree::Decl;
use std::alloc::Global;
use tree_meaning::Scope;
use type_tables::TypeTable;

/// The description that the declarations make, with what its names stand for, or the first declaration that lacks a condition. Each
/// Number in the trees is at most 4,294,967,295.
pub fn describe<'a>(alloc: Global, decls: &'a [Decl]) -> Result<Description<'a>, ElabFault>
    requires { All HasNumbersInRange decls.now }
    ensures made { IfOk result (λ d. described_in d ≡ described decls.now) }
    ensures sound { IfOk result (λ d. IsSound (described_in d)) }
    ensures read { IfOk result (λ d. IsReadOnce d.spec) }
    ensures met { IfOk result (λ _. IsDescriptionLack decls.now None) }
    ensures refused { IfErr result (IsRefusedBy (IsDescriptionLack decls.now)) }
{
    let mut description = Description::new(alloc);
    let mut types = TypeTable::new(alloc);
    let mut number = 1;
    for decl in decls {
        if let Some(lack) = declare(alloc, &mut description, &mut types, decl)? {
            return Err(ElabFault::Unmet {
                declaration: number,
                condition: lack,
            });
        }
        number = next_number(number, decl);
    }
    Ok(description)
}

/// The description that the declarations make, or the first of them that lacks a condition: as `describe`.
pub fn elaborate(alloc: Global, decls: &[Decl]) -> Result<Spec, ElabFault>
    requires { All HasNumbersInRange decls.now }
    ensures made { IfOk result (λ spec. spec ≡ spec_of decls.now) }
    ensures met { IfOk result (λ _. IsDescriptionLack decls.now None) }
    ensures refused { IfErr result (IsRefusedBy (IsDescriptionLack decls.now)) }
{
    let Description { spec, .. } = describe(alloc, decls)?;
    Ok(spec)
}

/// What the names of declarations stand for that lack nothing: `spec` is what `elaborate` answers on them.
pub fn scope_of<'a>(alloc: Global, decls: &'a [Decl], spec: &Spec) -> Result<Scope<'a>, NoMemory>
    requires numbers { All HasNumbersInRange decls.now }
    requires met { IsDescriptionLack decls.now None }
    requires same { spec.now ≡ spec_of decls.now }
    ensures made { IfOk result (λ scope. declared_in scope ≡ (described decls.now).declared) }
    ensures sound { IfOk result (λ scope. IsSound (record { spec = spec.now; declared = declared_in scope })) }
{
    match describe(alloc, decls) {
        Ok(Description { scope, .. }) => Ok(scope),
        Err(_) => Err(NoMemory),
    }
}

// A heading has no number.
fn next_number(number: u64, decl: &Decl) -> u64
    requires { number < 2 ^ 63 }
    ensures { result ≡ next_number_of number decl.now }
{
    match decl {
        Decl::Heading(_) => number,
        _ => number + 1,
    }
}

// Adds what the declaration declares, or answers the first condition that it lacks.
fn declare<'a>(
    alloc: Global,
    description: &mut Description<'a>,
    types: &mut TypeTable,
    decl: &'a Decl,
) -> Result<Option<u8>, NoMemory>
    requires sound { IsSound (described_in description.old) }
    requires plain { HasPlainNames (described_in description.old).declared }
    requires types { IsTableOf description.old.spec types.old }
    requires numbers { HasNumbersInRange decl.now }
    ensures lack { IfOk result (IsLackOf (described_in description.old) decl.now) }
    ensures made { IfOk result (λ lack. lack ≡ None → described_in description.new ≡ after (described_in description.old) decl.now) }
    ensures sound { IfOk result (λ lack. lack ≡ None → IsSound (described_in description.new)) }
    ensures types { IfOk result (λ lack. lack ≡ None → IsTableOf description.new.spec types.new) }
{
    match decl {
        Decl::Heading(_) => Ok(None),
        Decl::Class {
            name,
            width,
            little,
            fields,
        } => declare_class(alloc, description, name, width, *little, fields),
        Decl::Definition {
            name,
            items,
            pattern,
        } => declare_definition(alloc, description, name.as_slice(), items, pattern),
        Decl::ConstructorDecl {
            opcode,
            operands,
            result: made,
            equations,
            body,
        } => {
            let tree = ConstructorTree {
                opcode,
                operands,
                result: made,
                equations,
                body,
            };
            declare_constructor(alloc, description, types, &tree)
        }
    }
}

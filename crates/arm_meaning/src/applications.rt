// Applications of constructors: which are admitted, and what they stand for.
ghost use Rattle.std.specs.Prelude.{◌≡◌, ◌<◌, ◌^◌, length, map, option_copied, IfOk};
ghost use Rattle.sled_model.specs.Kinds.{is_of, type_in};
ghost use Rattle.sled_model.specs.Specs.{IsSpec};
ghost use Rattle.tree_meaning.specs.NameTables.{table_names};
ghost use Rattle.tree_meaning.specs.Patterns.{label_number as number_of};
ghost use Rattle.arm_meaning.specs.Applications as of;

use sled_base::NoMemory;
use sled_model::{Argument, ArgumentList, Constructor, ConstructorId, OperandKind, Pattern, Spec};
use sled_parser::tree::ArgumentTree;
use sqlite_items::Boxed;
use std::alloc::Global;
use tree_meaning::NameTable;

// The constructor of that name, found by hash.
fn constructor_called<'s>(spec: &'s Spec, name: &[u8]) -> Option<&'s Constructor>
    requires { IsSpec spec.now }
    ensures { option_copied result ≡ of.constructor_called spec.now name.now }
{
    let id = spec.find(name)?;
    spec.constructor(id)
}

// Whether the kind is that of a typed operand, and the constructor makes its type.
fn makes(kind: &OperandKind, constructor: &Constructor) -> bool
    ensures { result ≡ is_of (type_in kind.now) constructor.now }
{
    match (kind, constructor.result) {
        (OperandKind::Typed(wanted), Some(made)) => made.0 == wanted.0,
        _ => false,
    }
}

/// Whether the name is a constructor's, and there is one argument for each of its operands, each of which may stand for it: `_` and a
/// name for any, and an application for a typed one, where it is one of the type that fits in its turn.
pub fn application_fits(spec: &Spec, name: &[u8], arguments: &[ArgumentTree]) -> bool
    requires { IsSpec spec.now }
    ensures { result ≡ of.application_fits spec.now name.now arguments.now }
{
    match constructor_called(spec, name) {
        None => false,
        Some(constructor) => arguments_fit(spec, constructor.operands.as_slice(), arguments),
    }
}

// Whether there is one argument for each kind, and it may stand for such an operand.
#[cycle(fits)]
fn arguments_fit(spec: &Spec, kinds: &[OperandKind], arguments: &[ArgumentTree]) -> bool
    requires { IsSpec spec.now }
    ensures { result ≡ of.arguments_fit spec.now kinds.now arguments.now }
{
    let mut left = kinds;
    for argument in arguments {
        let Some((kind, more)) = left.split_first() else {
            return false;
        };
        if !argument_fits(spec, kind, argument) {
            return false;
        }
        left = more;
    }
    left.is_empty()
}

#[cycle(fits)]
fn argument_fits(spec: &Spec, kind: &OperandKind, argument: &ArgumentTree) -> bool
    requires { IsSpec spec.now }
    ensures { result ≡ of.argument_fits spec.now kind.now argument.now }
{
    let ArgumentTree::Inner {
        constructor,
        arguments,
    } = argument
    else {
        return true;
    };
    match constructor_called(spec, constructor.as_slice()) {
        None => false,
        Some(inner) => {
            makes(kind, inner)
                && arguments_fit(spec, inner.operands.as_slice(), arguments.as_slice())
        }
    }
}

// The number of the constructor of that name, or the first where there is none.
fn constructor_or_first(spec: &Spec, name: &[u8]) -> ConstructorId
    requires { IsSpec spec.now }
    ensures { result ≡ of.constructor_or_first spec.now name.now }
{
    match spec.find(name) {
        Some(id) => id,
        None => ConstructorId(0),
    }
}

/// The number of the name among those that the arm binds, or the first where it is none of them.
pub(crate) fn label_number(names: &NameTable<'_>, name: &[u8]) -> u32
    requires { length (table_names names.now) < 2 ^ 32 }
    ensures { result ≡ number_of (table_names names.now) name.now }
{
    match names.find(name) {
        Some(number) => number as u32,
        None => 0,
    }
}

/// The pattern that an application is in an arm that binds these names. A constructor that is not known counts as the first.
#[cycle(application)]
pub fn application(
    alloc: Global,
    spec: &Spec,
    names: &NameTable<'_>,
    name: &[u8],
    arguments: &[ArgumentTree],
) -> Result<Pattern, NoMemory>
    requires sound { IsSpec spec.now }
    requires names { length (table_names names.now) < 2 ^ 32 }
    ensures { IfOk result (λ p. p ≡ of.application_of spec.now (table_names names.now) name.now arguments.now) }
{
    Ok(Pattern::Apply {
        constructor: constructor_or_first(spec, name),
        arguments: arguments_of(alloc, spec, names, arguments)?,
    })
}

#[cycle(application)]
fn arguments_of(
    alloc: Global,
    spec: &Spec,
    names: &NameTable<'_>,
    arguments: &[ArgumentTree],
) -> Result<ArgumentList, NoMemory>
    requires sound { IsSpec spec.now }
    requires names { length (table_names names.now) < 2 ^ 32 }
    ensures { IfOk result (λ made. made ≡ map (of.argument_of spec.now (table_names names.now)) arguments.now) }
{
    let mut made = ArgumentList::new(alloc);
    for argument in arguments {
        made.push(argument_of(alloc, spec, names, argument)?)?;
    }
    Ok(made)
}

#[cycle(application)]
fn argument_of(
    alloc: Global,
    spec: &Spec,
    names: &NameTable<'_>,
    argument: &ArgumentTree,
) -> Result<Argument, NoMemory>
    requires sound { IsSpec spec.now }
    requires names { length (table_names names.now) < 2 ^ 32 }
    ensures { IfOk result (λ a. a ≡ of.argument_of spec.now (table_names names.now) argument.now) }
{
    match argument {
        ArgumentTree::Any => Ok(Argument::Any),
        ArgumentTree::Name(name) => Ok(Argument::Name(label_number(names, name.as_slice()))),
        ArgumentTree::Inner {
            constructor,
            arguments,
        } => {
            let name = constructor.as_slice();
            let inner = application(alloc, spec, names, name, arguments.as_slice())?;
            Ok(Argument::Inner(Boxed::new(alloc, inner)?))
        }
    }
}

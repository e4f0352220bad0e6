// A token class and its fields.
ghost use Rattle.std.specs.Prelude.{◌≡◌, ◌<◌, None, true, false, map, IfOk, OnOk, if◌then◌else◌};
ghost use Rattle.std.specs.List.{list_all};
ghost use Rattle.constructor_meaning.specs.Unmet.{first_unmet};
ghost use Rattle.sled_elab.specs.Conditions as of;
ghost use Rattle.sled_elab.specs.Declarations.{class_names as class_names_of, with_class, with_field, field_of, class_of};
ghost use Rattle.sled_elab.specs.Descriptions.{described_in, IsSound};
ghost use Rattle.sled_lexer.specs.Spelled.{number_value as value_of};
ghost use Rattle.token_bits.specs.Tokens.{IsFieldOf};
ghost use Rattle.tree_meaning.specs.Names.{is_among};
ghost use Rattle.tree_meaning.specs.Scopes.{declared_in};

use crate::description::Description;
use sled_base::NoMemory;
use sled_lexer::{number_in_range, number_value};
use sled_model::Name;
use sled_parser::tree::{FieldTree, FieldTreeList, Spelling};
use std::alloc::Global;
use token_bits::{Class, ClassId, Field, Order};
use tree_meaning::{Meaning, Scope, are_declared_once};

/// Adds the class and its fields, or answers what the declaration lacks.
pub fn declare_class<'a>(
    alloc: Global,
    description: &mut Description<'a>,
    name: &'a Spelling,
    width: &Spelling,
    little: bool,
    fields: &'a FieldTreeList,
) -> Result<Option<u8>, NoMemory>
    requires { IsSound (described_in description.old) }
    ensures lack { IfOk result (λ lack. lack ≡ first_unmet (of.class_conditions (described_in description.old) name.now width.now fields.now)) }
    ensures made { IfOk result (λ lack. lack ≡ None → described_in description.new ≡ with_class (described_in description.old) name.now width.now little fields.now) }
    ensures sound { IfOk result (λ lack. lack ≡ None → IsSound (described_in description.new)) }
{
    let (name, fields) = (name.as_slice(), fields.as_slice());
    if !declares_once(alloc, &description.scope, name, fields)? {
        return Ok(Some(1));
    }
    if !has_widths(width.as_slice(), fields) {
        return Ok(Some(3));
    }
    add_class(alloc, description, name, width.as_slice(), little, fields)?;
    Ok(None)
}

fn declares_once(
    alloc: Global,
    scope: &Scope<'_>,
    name: &[u8],
    fields: &[FieldTree],
) -> Result<bool, NoMemory>
    ensures { IfOk result (λ once. once ≡ of.are_declared_once (declared_in scope.now) (class_names_of name.now fields.now)) }
{
    let names = class_names(alloc, name, fields)?;
    are_declared_once(alloc, &scope.names, names.as_slice())
}

fn class_names<'a>(
    alloc: Global,
    name: &'a [u8],
    fields: &'a [FieldTree],
) -> Result<Vec<&'a [u8]>, NoMemory>
    ensures { IfOk result (λ names. map (λ x. x.now) names.items ≡ class_names_of name.now fields.now) }
{
    let mut names = Vec::new(alloc);
    names.push(name)?;
    for field in fields {
        names.push(field.name.as_slice())?;
    }
    Ok(names)
}

fn has_widths(width: &[u8], fields: &[FieldTree]) -> bool
    ensures { result ≡ of.has_widths width.now fields.now }
{
    match number_in_range(width) {
        Some(width) => is_class_width(width) && are_fields_of(width, fields),
        None => false,
    }
}

fn are_fields_of(width: u32, fields: &[FieldTree]) -> bool
    ensures { result ≡ list_all (of.is_field_of width) fields.now }
{
    fields.iter().all(|f| is_field_of(width, f))
}

fn is_class_width(width: u32) -> bool
    ensures { result ≡ of.is_class_width width }
{
    width == 8 || width == 16 || width == 32
}

fn is_field_of(width: u32, field: &FieldTree) -> bool
    ensures { result ≡ of.is_field_of width field.now }
{
    match (
        number_in_range(field.lo.as_slice()),
        number_in_range(field.hi.as_slice()),
    ) {
        (Some(lo), Some(hi)) => lo <= hi && hi < width,
        _ => false,
    }
}

// Adds a class that lacks nothing, and its fields.
fn add_class<'a>(
    alloc: Global,
    description: &mut Description<'a>,
    name: &'a [u8],
    width: &[u8],
    little: bool,
    fields: &'a [FieldTree],
) -> Result<(), NoMemory>
    requires sound { IsSound (described_in description.old) }
    requires once { of.are_declared_once (described_in description.old).declared (class_names_of name.now fields.now) ≡ true }
    requires widths { of.has_widths width.now fields.now ≡ true }
    ensures made { OnOk result (described_in description.new ≡ with_class (described_in description.old) name.now width.now little fields.now) }
    ensures sound { OnOk result (IsSound (described_in description.new)) }
{
    let class = Class {
        width: small_number(width),
        order: order_of(little),
    };
    let id = description
        .spec
        .add_class(Name::from_slice(alloc, name)?, class)?;
    description.scope.declare(name, Meaning::Class(id))?;
    for field in fields {
        add_field(alloc, description, id, field)?;
    }
    Ok(())
}

fn order_of(little: bool) -> Order
    ensures { result ≡ (if little then Order.Little else Order.Big) }
{
    if little { Order::Little } else { Order::Big }
}

// A number below 256.
fn small_number(number: &[u8]) -> u8
    requires { value_of number.now < 256 }
    ensures { result ≡ value_of number.now }
{
    number_value(number) as u8
}

// Adds a field of the class.
fn add_field<'a>(
    alloc: Global,
    description: &mut Description<'a>,
    class: ClassId,
    tree: &'a FieldTree,
) -> Result<(), NoMemory>
    requires sound { IsSound (described_in description.old) }
    requires fresh { is_among (described_in description.old).declared.names tree.now.name ≡ false }
    requires place { IsFieldOf description.old.spec.tokens.classes (field_of class.0 tree.now) }
    requires small { value_of tree.now.hi < 256 }
    ensures made { OnOk result (described_in description.new ≡ with_field class.0 (described_in description.old) tree.now) }
    ensures sound { OnOk result (IsSound (described_in description.new)) }
{
    let field = Field {
        class,
        lo: small_number(tree.lo.as_slice()),
        hi: small_number(tree.hi.as_slice()),
    };
    let name = Name::from_slice(alloc, tree.name.as_slice())?;
    let id = description.spec.add_field(name, field)?;
    description
        .scope
        .declare(tree.name.as_slice(), Meaning::Field(id))
}

// What the types come to, one after the other.
ghost use Rattle.std.specs.Prelude.{◌≡◌, ◌<◌, map, max, get_or, length, if◌then◌else◌, IfOk};
ghost use Rattle.std.specs.Option.{option_copied};
ghost use Rattle.sled_model.specs.declared.constructor.TypeId.{TypeId as TypeIdOf};
ghost use Rattle.sled_model.specs.Results.{makes};
ghost use Rattle.type_tables.specs.Types.{entry_in, shapes_in, weight_in};
ghost use Rattle.application_measures.specs.Tables.{len_in};

use pattern_shapes::copy_shapes;
use sled_base::NoMemory;
use sled_model::{OperandKind, ShapeList, TypeId};
use sqlite_items::Items;
use std::alloc::Global;
use type_tables::TypeEntry;

/// What is kept of the operand's type, where it is of one.
fn entry_of(types: &[TypeEntry], kind: OperandKind) -> Option<&TypeEntry>
    ensures { option_copied result ≡ entry_in types.now kind }
{
    match kind {
        OperandKind::Typed(id) => types.get(id.0 as usize),
        OperandKind::Plain(_)
        | OperandKind::Extended(_)
        | OperandKind::Whole
        | OperandKind::Sliced => None,
    }
}

/// A copy of the shapes of the operand's type, or none.
fn shapes_at(alloc: Global, types: &[TypeEntry], kind: OperandKind) -> Result<ShapeList, NoMemory>
    ensures { IfOk result (λ shapes. shapes ≡ shapes_in types.now kind) }
{
    match entry_of(types, kind) {
        Some(entry) => copy_shapes(alloc, entry.shapes.as_slice()),
        None => Ok(Items::new(alloc)),
    }
}

/// A copy of the shapes of the type of each operand, or none.
pub(crate) fn operand_shapes(
    alloc: Global,
    types: &[TypeEntry],
    kinds: &[OperandKind],
) -> Result<Items<ShapeList>, NoMemory>
    ensures { IfOk result (λ shapes. shapes ≡ map (shapes_in types.now) kinds.now) }
{
    let mut shapes = Items::new(alloc);
    for kind in kinds {
        shapes.push(shapes_at(alloc, types, *kind)?)?;
    }
    Ok(shapes)
}

/// The weight of the operand's type, or 0.
fn weight_at(types: &[TypeEntry], kind: OperandKind) -> u64
    ensures { result ≡ weight_in types.now kind }
{
    match entry_of(types, kind) {
        Some(entry) => entry.weight,
        None => 0,
    }
}

/// The weight of the type of each operand, or 0.
pub(crate) fn operand_weights(
    alloc: Global,
    types: &[TypeEntry],
    kinds: &[OperandKind],
) -> Result<Items<u64>, NoMemory>
    ensures { IfOk result (λ weights. weights ≡ map (weight_in types.now) kinds.now) }
{
    let mut weights = Items::new(alloc);
    for kind in kinds {
        weights.push(weight_at(types, *kind))?;
    }
    Ok(weights)
}

/// The number at this place, or 0.
pub(crate) fn number_at(numbers: &[u64], at: u32) -> u64
    ensures { result ≡ get_or numbers.now at 0 }
{
    match numbers.get(at as usize) {
        Some(number) => *number,
        None => 0,
    }
}

/// The length of the operand's type, or 0.
fn len_at(lens: &[u64], kind: OperandKind) -> u64
    ensures { result ≡ len_in lens.now kind }
{
    match kind {
        OperandKind::Typed(id) => number_at(lens, id.0),
        OperandKind::Plain(_)
        | OperandKind::Extended(_)
        | OperandKind::Whole
        | OperandKind::Sliced => 0,
    }
}

/// The length of the type of each operand, or 0.
pub(crate) fn operand_lens(
    alloc: Global,
    lens: &[u64],
    kinds: &[OperandKind],
) -> Result<Items<u64>, NoMemory>
    ensures { IfOk result (λ found. found ≡ map (len_in lens.now) kinds.now) }
{
    let mut found = Items::new(alloc);
    for kind in kinds {
        found.push(len_at(lens, *kind))?;
    }
    Ok(found)
}

/// Makes the type that a constructor makes at least as long as the constructor, where there is such a type.
pub(crate) fn lengthen(lens: &mut Items<u64>, made: Option<TypeId>, len: u64)
    ensures count { length lens.new ≡ length lens.old }
    ensures each { (t : TypeIdOf) → t.0 < length lens.old → get_or lens.new t.0 0 ≡ (if makes t made then max (get_or lens.old t.0 0) len else get_or lens.old t.0 0) }
{
    let Some(id) = made else {
        return;
    };
    let at = id.0 as usize;
    if at < lens.len() {
        let longest = number_at(lens.as_slice(), id.0).max(len);
        lens.set(at, longest);
    }
}

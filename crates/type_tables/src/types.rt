// What the types come to, one after the other.
ghost use Rattle.std.specs.Prelude.{◌≡◌, ◌<◌, ◌∷◌, [], ℕ, map, length, slice_get, option_map, IfOk, OnOk};
ghost use Rattle.std.specs.Option.{option_copied};
ghost use Rattle.type_tables.specs.Types.{entry_in, weight_in, size_in, shapes_in, with_uses, GainsConstructor, GainMade};

use crate::Measures;
use pattern_shapes::{add_shapes, copy_shapes};
use sled_base::NoMemory;
use sled_model::{OperandKind, ShapeList, TypeId};
use sqlite_items::Items;
use std::alloc::Global;

/// What is told in place of a greater measure.
pub(crate) const CAP: u64 = 1_000_000;

/// What the constructors of a type come to. What is above 1,000,000 counts as 1,000,000.
#[derive(Debug, Drop)]
pub struct TypeEntry {
    /// The weights of the constructors together.
    pub weight: u64,
    /// The greatest size of the constructors.
    pub size: u64,
    /// The shapes of the constructors, each once and in no order.
    pub shapes: ShapeList,
    /// Whether an operand of some constructor is of the type.
    pub used: bool,
}

/// What is kept of the operand's type, where it is of one.
fn entry_of(types: &[TypeEntry], kind: OperandKind) -> Option<&TypeEntry>
    ensures { option_copied result ≡ entry_in types.now kind }
{
    match kind {
        OperandKind::Typed(id) => types.get(id.0 as usize),
        OperandKind::Plain(_)
        | OperandKind::Extended(_)
        | OperandKind::Whole
        | OperandKind::Sliced => None,
    }
}

fn weight_at(types: &[TypeEntry], kind: OperandKind) -> u64
    ensures { result ≡ weight_in types.now kind }
{
    match entry_of(types, kind) {
        Some(entry) => entry.weight,
        None => 0,
    }
}

/// The weight of the type of each operand, or 0.
pub(crate) fn operand_weights(
    alloc: Global,
    types: &[TypeEntry],
    kinds: &[OperandKind],
) -> Result<Items<u64>, NoMemory>
    ensures { IfOk result (λ weights. weights ≡ map (weight_in types.now) kinds.now) }
{
    let mut weights = Items::new(alloc);
    for kind in kinds {
        weights.push(weight_at(types, *kind))?;
    }
    Ok(weights)
}

fn size_at(types: &[TypeEntry], kind: OperandKind) -> u64
    ensures { result ≡ size_in types.now kind }
{
    match entry_of(types, kind) {
        Some(entry) => entry.size,
        None => 0,
    }
}

/// The size of the type of each operand, or 0.
pub(crate) fn operand_sizes(
    alloc: Global,
    types: &[TypeEntry],
    kinds: &[OperandKind],
) -> Result<Items<u64>, NoMemory>
    ensures { IfOk result (λ sizes. sizes ≡ map (size_in types.now) kinds.now) }
{
    let mut sizes = Items::new(alloc);
    for kind in kinds {
        sizes.push(size_at(types, *kind))?;
    }
    Ok(sizes)
}

fn shapes_at(alloc: Global, types: &[TypeEntry], kind: OperandKind) -> Result<ShapeList, NoMemory>
    ensures { IfOk result (λ shapes. shapes ≡ shapes_in types.now kind) }
{
    match entry_of(types, kind) {
        Some(entry) => copy_shapes(alloc, entry.shapes.as_slice()),
        None => Ok(Items::new(alloc)),
    }
}

/// A copy of the shapes of the type of each operand, or none.
pub(crate) fn operand_shapes(
    alloc: Global,
    types: &[TypeEntry],
    kinds: &[OperandKind],
) -> Result<Items<ShapeList>, NoMemory>
    ensures { IfOk result (λ shapes. shapes ≡ map (shapes_in types.now) kinds.now) }
{
    let mut shapes = Items::new(alloc);
    for kind in kinds {
        shapes.push(shapes_at(alloc, types, *kind)?)?;
    }
    Ok(shapes)
}

/// Adds a constructor of the type.
fn add_to_type(entry: &mut TypeEntry, measures: Measures) -> Result<(), NoMemory>
    ensures { OnOk result (GainsConstructor measures entry.old entry.new) }
{
    add_shapes(&mut entry.shapes, measures.form.shapes)?;
    entry.weight = entry.weight.saturating_add(measures.weight).min(CAP);
    entry.size = entry.size.max(measures.size);
    Ok(())
}

/// Adds a constructor to the type that it makes, where it makes one. On `NoMemory` a part of it is added.
pub(crate) fn add_made(
    types: &mut [TypeEntry],
    made: Option<TypeId>,
    measures: Measures,
) -> Result<(), NoMemory>
    ensures { OnOk result (GainMade made measures types.old types.new) }
{
    let Some(id) = made else {
        return Ok(());
    };
    let at = id.0 as usize;
    if at < types.len() {
        add_to_type(&mut types[at], measures)?;
    }
    Ok(())
}

/// Marks the type of the operand as used.
fn mark(types: &mut [TypeEntry], kind: OperandKind)
    ensures { (t : ℕ) → slice_get types.new t ≡ option_map (with_uses t (kind ∷ [])) (slice_get types.old t) }
{
    if let OperandKind::Typed(id) = kind {
        let at = id.0 as usize;
        if at < types.len() {
            types[at].used = true;
        }
    }
}

/// Marks the type of each operand as used.
pub(crate) fn mark_all(types: &mut [TypeEntry], kinds: &[OperandKind])
    ensures { (t : ℕ) → slice_get types.new t ≡ option_map (with_uses t kinds.now) (slice_get types.old t) }
{
    for kind in kinds {
        mark(types, *kind);
    }
}

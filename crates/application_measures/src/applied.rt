// The operands of a constructor that is applied.
ghost use Rattle.std.specs.Prelude.{◌≡◌, length, map, IfOk};
ghost use Rattle.type_tables.specs.Types.{shapes_in, weight_in};
ghost use Rattle.application_measures.specs.Arms.{IsPut};

use crate::ArmMeasures;
use crate::types::{operand_shapes, operand_weights};
use sled_base::NoMemory;
use sled_model::{OperandKind, ShapeList};
use sqlite_items::Items;
use std::alloc::Global;
use type_tables::TypeEntry;

/// The shapes and the weight of each operand.
#[derive(Drop)]
pub(crate) struct Operands {
    pub shapes: Items<ShapeList>,
    pub weights: Items<u64>,
}

impl Operands {
    /// What the types of operands of these kinds come to.
    pub(crate) fn of_kinds(
        alloc: Global,
        types: &[TypeEntry],
        kinds: &[OperandKind],
    ) -> Result<Operands, NoMemory>
        ensures { IfOk result (λ operands. operands ≡ record { shapes = map (shapes_in types.now) kinds.now; weights = map (weight_in types.now) kinds.now }) }
    {
        let shapes = operand_shapes(alloc, types, kinds)?;
        let weights = operand_weights(alloc, types, kinds)?;
        Ok(Operands { shapes, weights })
    }

    /// Puts the inner application, where there is one, in place of the operand of this number, where there is such an operand.
    pub(crate) fn put(&mut self, at: usize, inner: Option<ArmMeasures>)
        requires { length self.old.shapes ≡ length self.old.weights }
        ensures { IsPut inner at self.old self.new }
    {
        let Some(inner) = inner else {
            return;
        };
        if at < self.shapes.len() {
            self.shapes.set(at, inner.form.shapes);
            self.weights.set(at, inner.weight);
        }
    }
}

// The table of a description's types.
ghost use Rattle.std.specs.Prelude.{◌≡◌, ◌<◌, ◌∷◌, ◌++◌, [], ℕ, List, length, IfOk, OnOk, OnErr};
ghost use Rattle.token_bits.specs.Tokens.{AreTokens};
ghost use Rattle.sled_model.specs.declared.constructor.Constructor.{Constructor};
ghost use Rattle.sled_model.specs.declared.spec.Spec.{Spec};
ghost use Rattle.sled_model.specs.Leaves.{IsNoApplication, AllLeaves};
ghost use Rattle.sled_model.specs.Specs.{IsSpec};
ghost use Rattle.type_tables.specs.Tables.{is_used_type, IsTableOf, AreMeasures, AreMeasuresOf};

use crate::measures::measures_over;
use crate::types::{add_made, mark_all};
use crate::{Measures, TypeEntry};
use sled_base::NoMemory;
use sled_model::{OperandKind, Pattern, TypeId};
use sqlite_items::Items;
use std::alloc::Global;
use token_bits::Tokens;

/// What each type of a description comes to, by its number.
#[derive(Debug, Drop)]
pub struct TypeTable {
    pub types: Vec<TypeEntry>,
}

impl TypeTable {
    /// The table of a description that has no types.
    pub fn new(alloc: Global) -> TypeTable
        ensures { (spec : Spec) → spec.type_names ≡ [] → IsTableOf spec result }
    {
        TypeTable {
            types: Vec::new(alloc),
        }
    }

    /// Adds a type, which no constructor makes or uses yet.
    pub fn add_type(&mut self, alloc: Global) -> Result<(), NoMemory>
        ensures added { OnOk result ((spec : Spec) (name : List ℕ) → IsSpec spec → IsTableOf spec self.old → IsTableOf (record spec { type_names = spec.type_names ++ name ∷ [] }) self.new) }
        ensures err { OnErr result ((spec : Spec) → IsTableOf spec self.old → IsTableOf spec self.new) }
    {
        self.types.push(TypeEntry {
            weight: 0,
            size: 0,
            shapes: Items::new(alloc),
            used: false,
        })?;
        Ok(())
    }

    /// The measures of a constructor with operands of these kinds and this body, which applies no constructor, in the description of
    /// which the table is. What its types hold is not gone over again. `NoMemory` where there is no memory for the answer.
    pub fn measure(
        &self,
        alloc: Global,
        tokens: &Tokens,
        kinds: &[OperandKind],
        body: &Pattern,
    ) -> Result<Measures, NoMemory>
        requires tokens { AreTokens tokens.now }
        requires plain { AllLeaves IsNoApplication body.now }
        ensures { IfOk result (λ measures. (spec : Spec) → IsSpec spec → spec.tokens ≡ tokens.now → IsTableOf spec self.now → AreMeasures spec kinds.now body.now measures) }
    {
        measures_over(alloc, self.types.as_slice(), tokens, kinds, body)
    }

    /// Adds a constructor that makes this type, or none, with operands of these kinds, whose measures these are. A type that the table
    /// does not have is passed over. On `NoMemory` a part of it is added, and nothing is said of the table.
    pub fn add_constructor(
        &mut self,
        made: Option<TypeId>,
        kinds: &[OperandKind],
        measures: Measures,
    ) -> Result<(), NoMemory>
        ensures { OnOk result ((spec : Spec) (c : Constructor) → IsTableOf spec self.old → c.result ≡ made → c.operands ≡ kinds.now → AreMeasuresOf spec c measures → IsTableOf (record spec { constructors = spec.constructors ++ c ∷ []; constructor_names = spec.constructor_names ++ c.name ∷ [] }) self.new) }
    {
        let types = self.types.as_mut_slice();
        add_made(types, made, measures)?;
        mark_all(types, kinds);
        Ok(())
    }

    /// Whether an operand of some constructor is of the type.
    pub fn is_used(&self, id: TypeId) -> bool
        ensures { (spec : Spec) → IsTableOf spec self.now → id.0 < length spec.type_names → result ≡ is_used_type spec id.0 }
    {
        match self.types.get(id.0 as usize) {
            Some(entry) => entry.used,
            None => false,
        }
    }
}

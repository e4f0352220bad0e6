// The table of a description's constructors.
ghost use Rattle.std.specs.Prelude.{◌≡◌, length, IfOk, OnOk};
ghost use Rattle.token_bits.specs.Tokens.{AreTokens};
ghost use Rattle.sled_model.specs.declared.spec.Spec.{Spec};
ghost use Rattle.sled_model.specs.Leaves.{IsNoApplication, AllLeaves};
ghost use Rattle.sled_model.specs.Specs.{IsSpec, IsConstructorOf};
ghost use Rattle.application_measures.specs.Tables.{IsApplicationTableOf, with_types, with_constructor};

use crate::lengths::len_over;
use crate::types::{lengthen, operand_lens};
use sled_base::NoMemory;
use sled_model::{Constructor, Spec};
use sqlite_items::Items;
use std::alloc::Global;
use token_bits::Tokens;
use type_tables::TypeTable;

/// What the constructors of a description come to in an application. What is above 1,000,000 counts as 1,000,000.
#[derive(Debug, Drop)]
pub struct ApplicationTable {
    /// What each type comes to.
    pub types: TypeTable,
    /// The size of each constructor.
    pub sizes: Items<u64>,
    /// The length of each constructor's body.
    pub lens: Items<u64>,
    /// The greatest length of the constructors of each type.
    pub type_lens: Items<u64>,
}

impl ApplicationTable {
    /// The table of the description. `NoMemory` where there is no memory for it.
    pub fn of(alloc: Global, spec: &Spec) -> Result<ApplicationTable, NoMemory>
        requires { IsSpec spec.now }
        ensures { IfOk result (IsApplicationTableOf spec.now) }
    {
        let mut table = ApplicationTable::of_types(alloc, spec)?;
        for constructor in spec.constructors.as_slice() {
            table.add(alloc, &spec.tokens, constructor)?;
        }
        Ok(table)
    }

    /// The table where no constructor is known yet.
    fn of_types(alloc: Global, spec: &Spec) -> Result<ApplicationTable, NoMemory>
        requires { IsSpec spec.now }
        ensures { IfOk result (IsApplicationTableOf (with_types spec.now)) }
    {
        let mut types = TypeTable::new(alloc);
        let sizes = Items::new(alloc);
        let lens = Items::new(alloc);
        let mut type_lens = Items::new(alloc);
        for _t in 0..spec.type_names.len() {
            types.add_type(alloc)?;
            type_lens.push(0)?;
        }
        Ok(ApplicationTable {
            types,
            sizes,
            lens,
            type_lens,
        })
    }

    /// Adds a constructor. On `NoMemory` a part of it is added.
    fn add(
        &mut self,
        alloc: Global,
        tokens: &Tokens,
        constructor: &Constructor,
    ) -> Result<(), NoMemory>
        requires tokens { AreTokens tokens.now }
        requires plain { AllLeaves IsNoApplication constructor.now.body }
        ensures { OnOk result ((spec : Spec) → IsSpec spec → spec.tokens ≡ tokens.now → IsConstructorOf spec.tokens (length spec.type_names) constructor.now → IsApplicationTableOf spec self.old → IsApplicationTableOf (with_constructor spec constructor.now) self.new) }
    {
        let kinds = constructor.operands.as_slice();
        let measures = self.types.measure(alloc, tokens, kinds, &constructor.body)?;
        let operands = operand_lens(alloc, self.type_lens.as_slice(), kinds)?;
        let len = len_over(tokens, operands.as_slice(), &constructor.body);
        self.sizes.push(measures.size)?;
        self.lens.push(len)?;
        lengthen(&mut self.type_lens, constructor.result, len);
        self.types
            .add_constructor(constructor.result, kinds, measures)?;
        Ok(())
    }
}

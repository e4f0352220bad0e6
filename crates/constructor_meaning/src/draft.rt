// A declaration that meets the conditions asked before its equations are solved.
ghost use Rattle.std.specs.Prelude.{◌≡◌, true, IfOk, IfErr, OnOk, None};
ghost use Rattle.tree_meaning.specs.Patterns.{has_all_in_range};
ghost use Rattle.tree_meaning.specs.Scopes.{declared_in};
ghost use Rattle.type_tables.specs.Tables.{IsTableOf};
ghost use Rattle.operand_meaning.specs.Terms.{have_equations_in_range};
ghost use Rattle.constructor_meaning.specs.Conditions as of;
ghost use Rattle.constructor_meaning.specs.Constructing.{constructing};
ghost use Rattle.constructor_meaning.specs.Draft.{IsDraftOf};
ghost use Rattle.constructor_meaning.specs.Read.{IsUnmetAt};
ghost use Rattle.constructor_meaning.specs.Sound.{IsSoundScope};
ghost use Rattle.constructor_meaning.specs.Unmet.{first_unmet};

use crate::fault::ReadFault;
use crate::forming::{measure_each, unmet_forming};
use crate::reading::{Reading, read};
use crate::standing::unmet_standing;
use crate::tree::ConstructorTree;
use sled_model::Spec;
use std::alloc::Global;
use tree_meaning::Scope;
use type_tables::{Measures, TypeTable};

/// A declaration that was read, and what each of its bodies comes to.
#[derive(Drop)]
pub struct Draft<'a> {
    pub reading: Reading<'a>,
    pub measures: Vec<Measures>,
}

/// Reads a declaration that meets each condition that is asked before its equations are solved, or names the first that it does not
/// meet. The scope is as before after an answer that is no fault.
pub fn draft_of<'a>(
    alloc: Global,
    spec: &Spec,
    types: &TypeTable,
    scope: &mut Scope<'a>,
    tree: &ConstructorTree<'a>,
) -> Result<Draft<'a>, ReadFault>
    requires sound { IsSoundScope spec.now (declared_in scope.old) }
    requires types { IsTableOf spec.now types.now }
    requires numbers { has_all_in_range tree.now.body.now ≡ true }
    requires equations { have_equations_in_range tree.now.equations.now ≡ true }
    ensures draft { IfOk result (IsDraftOf spec.now (declared_in scope.old) (constructing tree.now)) }
    ensures met { IfOk result (λ _. first_unmet (of.conditions spec.now (declared_in scope.old) (constructing tree.now)) ≡ None) }
    ensures unmet { IfErr result (λ fault. IsUnmetAt fault (first_unmet (of.conditions spec.now (declared_in scope.old) (constructing tree.now)))) }
    ensures kept { OnOk result (declared_in scope.new ≡ declared_in scope.old) }
{
    let reading = match read(alloc, spec, types, scope, tree) {
        Ok(reading) => reading,
        Err(fault) => return Err(fault),
    };
    let kinds = reading.kinds.as_slice();
    let measures = measure_each(alloc, spec, types, kinds, reading.body.bodies.as_slice())?;
    if let Some(condition) = unmet_forming(spec, &reading, measures.as_slice()) {
        return Err(ReadFault::Unmet(condition));
    }
    if let Some(condition) = unmet_standing(alloc, scope, tree, &reading)? {
        return Err(ReadFault::Unmet(condition));
    }
    Ok(Draft { reading, measures })
}

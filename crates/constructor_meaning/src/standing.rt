// The conditions on the operands and the equations of a declaration.
ghost use Rattle.std.specs.Prelude.{◌≡◌, ◌∷◌, [], true, IfOk};
ghost use Rattle.tree_meaning.specs.Scopes.{declared_in};
ghost use Rattle.operand_meaning.specs.Terms.{have_equations_in_range};
ghost use Rattle.constructor_meaning.specs.Conditions as of;
ghost use Rattle.constructor_meaning.specs.Constructing.{constructing};
ghost use Rattle.constructor_meaning.specs.Read.{IsReadingOf};
ghost use Rattle.constructor_meaning.specs.Unmet.{first_unmet};

use crate::reading::Reading;
use crate::tree::ConstructorTree;
use operand_meaning::{are_within_limits, names_stand};
use sled_base::NoMemory;
use std::alloc::Global;
use tree_meaning::Scope;

/// The first of the conditions 10 and 11 that the declaration does not meet.
pub fn unmet_standing(
    alloc: Global,
    scope: &Scope<'_>,
    tree: &ConstructorTree<'_>,
    reading: &Reading<'_>,
) -> Result<Option<u8>, NoMemory>
    requires reading { IsReadingOf (declared_in scope.now) (constructing tree.now) reading.now }
    requires numbers { have_equations_in_range tree.now.equations.now ≡ true }
    ensures { IfOk result (λ unmet. unmet ≡ first_unmet (of.standing_conditions (declared_in scope.now) (constructing tree.now))) }
{
    let (operands, equations) = (tree.operands.as_slice(), tree.equations.as_slice());
    let bound = &reading.body.bindings.names;
    let stand = names_stand(alloc, scope, bound, &reading.labels, operands, equations)?;
    let within = are_within_limits(alloc, scope, operands, equations)?;
    Ok(first_unmet_standing(stand, within))
}

fn first_unmet_standing(stand: bool, within: bool) -> Option<u8>
    ensures { result ≡ first_unmet ((10, stand) ∷ (11, within) ∷ []) }
{
    if !stand {
        Some(10)
    } else if !within {
        Some(11)
    } else {
        None
    }
}

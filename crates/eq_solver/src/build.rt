// The plan of a constructor.
ghost use Rattle.std.specs.Prelude.{◌≡◌, ◌^◌, ◌≤◌, length, IfOk, IsErrOf};
ghost use Rattle.token_bits.specs.Tokens.{AreTokens};
ghost use Rattle.sled_model.specs.SolvingOrder.{bare_fields, IsDetermined};
ghost use Rattle.sled_model.specs.Linear.{IsLinear};
ghost use Rattle.sled_model.specs.Solved.{IsSolved};
ghost use Rattle.eq_solver.specs.Cells.{IsPlanOf, AreValuesBy};

use crate::bare::fields_of;
use crate::cells::{celled_equations, celled_values, halves, hidden, sources};
use crate::order::solving_steps;
use crate::plan::OperandValues;
use crate::values::values_of;
use crate::{Plan, PlanFault};
use sled_model::{Constructor, Spec};
use std::alloc::Global;
use token_bits::Tokens;

/// The values by which condition 13 is met, with each field named by its cell.
fn given_values(
    alloc: Global,
    tokens: &Tokens,
    constructor: &Constructor,
    fields: &[u32],
) -> Result<OperandValues, PlanFault>
    requires tokens { AreTokens tokens.now }
    requires linear { IsLinear tokens.now constructor.now }
    requires fields { fields.now ≡ bare_fields constructor.now.body }
    ensures values { IfOk result (λ given. AreValuesBy tokens.now constructor.now given.values given.slices) }
    ensures solved { IfOk result (λ _. IsSolved tokens.now constructor.now) }
    ensures partial { IsErrOf result PlanFault.Partial → IsSolved tokens.now constructor.now → ⊥ }
    ensures decided { IsErrOf result PlanFault.Undetermined → ⊥ }
{
    match values_of(alloc, tokens, constructor) {
        Ok(given) => {
            let values = celled_values(alloc, fields, given.values.as_slice())?;
            Ok(OperandValues {
                values,
                slices: given.slices,
            })
        }
        Err(fault) => Err(fault),
    }
}

/// The plan over the bare fields of the constructor's body, where conditions 12 and 13 are met.
fn plan_over(
    alloc: Global,
    tokens: &Tokens,
    constructor: &Constructor,
    fields: &[u32],
) -> Result<Plan, PlanFault>
    requires tokens { AreTokens tokens.now }
    requires linear { IsLinear tokens.now constructor.now }
    requires fields { fields.now ≡ bare_fields constructor.now.body }
    ensures plan { IfOk result (IsPlanOf tokens.now constructor.now) }
    ensures determined { IfOk result (λ _. IsDetermined constructor.now) }
    ensures undetermined { IsErrOf result PlanFault.Undetermined → IsDetermined constructor.now → ⊥ }
    ensures solved { IfOk result (λ _. IsSolved tokens.now constructor.now) }
    ensures partial { IsErrOf result PlanFault.Partial → IsDetermined constructor.now × (IsSolved tokens.now constructor.now → ⊥) }
{
    let equations = celled_equations(alloc, fields, constructor.equations.as_slice())?;
    let halves = halves(alloc, tokens, fields)?;
    let sources = sources(alloc, constructor.operands.as_slice(), fields)?;
    let hidden = hidden(alloc, sources.as_slice())?;
    match solving_steps(alloc, equations.as_slice(), hidden.as_slice()) {
        Ok(steps) => match given_values(alloc, tokens, constructor, fields) {
            Ok(given) => Ok(Plan {
                halves,
                sources,
                hidden,
                equations,
                steps,
                values: given.values,
                slices: given.slices,
            }),
            Err(fault) => Err(fault),
        },
        Err(fault) => Err(fault),
    }
}

/// The plan of a constructor of the language, where conditions 12 and 13 are met.
fn solving_plan(
    alloc: Global,
    tokens: &Tokens,
    constructor: &Constructor,
) -> Result<Plan, PlanFault>
    requires tokens { AreTokens tokens.now }
    requires linear { IsLinear tokens.now constructor.now }
    ensures plan { IfOk result (IsPlanOf tokens.now constructor.now) }
    ensures determined { IfOk result (λ _. IsDetermined constructor.now) }
    ensures undetermined { IsErrOf result PlanFault.Undetermined → IsDetermined constructor.now → ⊥ }
    ensures solved { IfOk result (λ _. IsSolved tokens.now constructor.now) }
    ensures partial { IsErrOf result PlanFault.Partial → IsDetermined constructor.now × (IsSolved tokens.now constructor.now → ⊥) }
{
    let fields = fields_of(alloc, &constructor.body)?;
    plan_over(alloc, tokens, constructor, fields.as_slice())
}

/// The plan of a constructor of the language. `Undetermined` exactly where condition 12 is unmet, else
/// `Partial` exactly where condition 13 is; `NoMemory` where there is no memory
/// for the plan.
pub fn plan_of(alloc: Global, spec: &Spec, constructor: &Constructor) -> Result<Plan, PlanFault>
    requires tokens { AreTokens spec.now.tokens }
    requires linear { IsLinear spec.now.tokens constructor.now }
    ensures plan { IfOk result (IsPlanOf spec.now.tokens constructor.now) }
    ensures determined { IfOk result (λ _. IsDetermined constructor.now) }
    ensures undetermined { IsErrOf result PlanFault.Undetermined → IsDetermined constructor.now → ⊥ }
    ensures solved { IfOk result (λ _. IsSolved spec.now.tokens constructor.now) }
    ensures partial { IsErrOf result PlanFault.Partial → IsDetermined constructor.now × (IsSolved spec.now.tokens constructor.now → ⊥) }
{
    solving_plan(alloc, spec.tokens(), constructor)
}

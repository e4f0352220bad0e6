// Conditions 12 and 13 of constructors.
ghost use Rattle.std.specs.Prelude.{All, IfOk};
ghost use Rattle.token_bits.specs.Tokens.{AreTokens};
ghost use Rattle.sled_model.specs.Linear.{IsLinear};
ghost use Rattle.constructor_plans.specs.Plans.{IsPlanUnmet, ArePlansUnmet};

use eq_solver::{PlanFault, plan_of};
use sled_base::NoMemory;
use sled_model::{Constructor, Spec};
use std::alloc::Global;

/// The first of conditions 12 and 13 that the constructor does not meet.
fn unmet_plan(alloc: Global, spec: &Spec, constructor: &Constructor) -> Result<Option<u8>, NoMemory>
    requires tokens { AreTokens spec.now.tokens }
    requires linear { IsLinear spec.now.tokens constructor.now }
    ensures { IfOk result (IsPlanUnmet spec.now.tokens constructor.now) }
{
    match plan_of(alloc, spec, constructor) {
        Ok(_) => Ok(None),
        Err(PlanFault::Undetermined) => Ok(Some(12)),
        Err(PlanFault::Partial) => Ok(Some(13)),
        Err(PlanFault::NoMemory) => Err(NoMemory),
    }
}

/// The first of conditions 12 and 13 that not all of the constructors meet.
pub fn unmet_plans(
    alloc: Global,
    spec: &Spec,
    constructors: &[Constructor],
) -> Result<Option<u8>, NoMemory>
    requires tokens { AreTokens spec.now.tokens }
    requires linear { All (IsLinear spec.now.tokens) constructors.now }
    ensures { IfOk result (ArePlansUnmet spec.now.tokens constructors.now) }
{
    let mut partial = false;
    for constructor in constructors {
        match unmet_plan(alloc, spec, constructor)? {
            None => {}
            Some(13) => partial = true,
            Some(number) => return Ok(Some(number)),
        }
    }
    if partial { Ok(Some(13)) } else { Ok(None) }
}

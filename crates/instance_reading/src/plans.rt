// The plans of a description's constructors.
ghost use Rattle.std.specs.Prelude.{◌≡◌, length, IfOk};
ghost use Rattle.token_bits.specs.declared.tokens.Tokens.{Tokens};
ghost use Rattle.token_bits.specs.Tokens.{AreTokens};
ghost use Rattle.sled_model.specs.declared.constructor.Constructor.{Constructor};
ghost use Rattle.sled_model.specs.Solved.{AreLabelValues};
ghost use Rattle.eq_solver.specs.Cells.{IsPlanOf};
ghost use Rattle.eq_solver.specs.Operands.{IsPlanWith, AreCellValues, AreOnlyOperands};
ghost use Rattle.eq_solver.specs.Sums.{at};
ghost use Rattle.match_meaning.specs.Readable.{IsReadable, IsReadableSpec};
ghost use Rattle.instance_reading.specs.Plans.{IsBodyPlan, ArePlansOf};

use crate::body_parts::{labels_of, operands_of};
use eq_solver::{Plan, PlanFault, plan_of};
use sled_base::NoMemory;
use sled_model::{Constructor, Spec};
use sqlite_items::Items;
use std::alloc::Global;

/// How what a constructor's body bound is read: the plan of the constructor's equations, the numbers of the body's labels, and those of
/// the operands that stand in it, each from left to right.
#[derive(Debug, Drop)]
pub(crate) struct BodyPlan {
    pub(crate) plan: Plan,
    pub(crate) labels: Items<u32>,
    pub(crate) standing: Items<u32>,
}

impl BodyPlan {
    /// The numbers of so many operands, by the values of the bare fields and the addresses of the labels.
    pub(crate) fn numbers(
        &self,
        alloc: Global,
        fields: &[i64],
        labels: &[i64],
        operands: usize,
    ) -> Result<Items<i64>, NoMemory>
        requires plan { IsPlanWith self.now.plan (length labels.now) operands }
        requires fields { AreCellValues self.now.plan.halves fields.now }
        requires labels { AreLabelValues (at labels.now) }
        ensures { IfOk result (λ numbers. (length numbers ≡ operands) × ((tokens : Tokens) (c : Constructor) → IsPlanOf tokens c self.now.plan → AreOnlyOperands tokens c fields.now (at labels.now) (at numbers))) }
    {
        let mut numbers = vec![in alloc; 0; operands]?;
        self.plan.operands(fields, labels, numbers.as_mut_slice());
        Ok(Items::from_vec(numbers))
    }
}

/// The solved equations of each constructor of a description, in order.
#[derive(Debug, Drop)]
pub struct Plans {
    pub(crate) each: Items<BodyPlan>,
}

/// The plan of a constructor that can be read: its equations determine every hidden field and every operand.
fn solved(alloc: Global, spec: &Spec, constructor: &Constructor) -> Result<Plan, NoMemory>
    requires tokens { AreTokens spec.now.tokens }
    requires readable { IsReadable spec.now.tokens constructor.now }
    ensures { IfOk result (IsPlanOf spec.now.tokens constructor.now) }
{
    match plan_of(alloc, spec, constructor) {
        Ok(plan) => Ok(plan),
        Err(PlanFault::NoMemory) => Err(NoMemory),
        Err(PlanFault::Undetermined) => unreachable!(),
        Err(PlanFault::Partial) => unreachable!(),
    }
}

fn body_plan(alloc: Global, spec: &Spec, constructor: &Constructor) -> Result<BodyPlan, NoMemory>
    requires tokens { AreTokens spec.now.tokens }
    requires readable { IsReadable spec.now.tokens constructor.now }
    ensures { IfOk result (IsBodyPlan spec.now.tokens constructor.now) }
{
    let plan = solved(alloc, spec, constructor)?;
    let labels = labels_of(alloc, &constructor.body)?;
    let standing = operands_of(alloc, &constructor.body)?;
    Ok(BodyPlan {
        plan,
        labels,
        standing,
    })
}

/// The plans of the description's constructors.
pub fn plans_of(alloc: Global, spec: &Spec) -> Result<Plans, NoMemory>
    requires { IsReadableSpec spec.now }
    ensures { IfOk result (ArePlansOf spec.now) }
{
    let mut each = Items::new(alloc);
    for constructor in spec.constructors.as_slice() {
        let plan = body_plan(alloc, spec, constructor)?;
        each.push(plan)?;
    }
    Ok(Plans { each })
}

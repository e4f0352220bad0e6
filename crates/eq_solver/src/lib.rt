//! Plans that solve a constructor's equations.
//!
//! `plan_of` makes the plan of a constructor once, or says that its equations do not determine every hidden field, or not every operand.
//! `Plan::fields` then gives, for operands and labels, the only values of the body's bare fields with which every equation holds, or names the first
//! equation, in solving order, that cannot hold together with those before it. `Plan::operands` gives, for fields and labels, the only
//! operands. Neither takes memory.
//!
//! That a plan is one of a constructor is `IsPlanOf`. The law `sound_of` gets from it what `Plan::fields` asks of the plan, and `suits_of`
//! what it asks of operands and labels that are in their ranges. What `Plan::operands` asks of the plan is `IsPlanWith`.
#![tactic(auto)]

mod bare;
mod build;
mod cells;
mod corners;
mod fault;
mod given;
mod isolate;
#[cfg(test)]
mod operand_tests;
mod operands;
mod order;
mod plan;
mod ranges;
mod solve;
mod starts;
mod sums;
mod targets;
#[cfg(test)]
mod tests;
mod values;

pub use build::plan_of;
pub use fault::PlanFault;
pub use plan::{NoSolution, Plan, SolvingStep, SolvingStepList, Source, SourceList, Work};

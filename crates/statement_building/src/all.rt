// The arms of `match all`.
ghost use Rattle.std.specs.Prelude.{◌≡◌, ◌≤◌, ◌+◌, None, All, IfOk, IfErr, List, ℕ, Option, length};
ghost use Rattle.application_measures.specs.Arms.{AreArmMeasures};
ghost use Rattle.application_measures.specs.Tables.{IsApplicationTableOf};
ghost use Rattle.matchable_arms.specs.Arms.{AppliesInside, HasLengths};
ghost use Rattle.sled_model.specs.declared.statement.Arm.{Arm as ArmOf};
ghost use Rattle.sled_model.specs.Specs.{IsSpec};
ghost use Rattle.statement_building.specs.Conditions as of;
ghost use Rattle.statement_building.specs.Faults.{IsRefusedAt};

use crate::fault::StatementFault;
use crate::unmet::{unmet_form, unmet_measure};
use application_measures::{ApplicationTable, ArmMeasures, arm_measures};
use sled_model::{Arm, Spec};
use std::alloc::Global;

/// Refuses the first of the arms, which `match all` stands for, whose pattern does not meet a condition.
pub(crate) fn check_all(
    alloc: Global,
    spec: &Spec,
    table: &ApplicationTable,
    arms: &[Arm],
) -> Result<(), StatementFault>
    requires sound { IsSpec spec.now }
    requires table { IsApplicationTableOf spec.now table.now }
    requires applies { All AppliesInside arms.now }
    ensures lengths { IfOk result (λ _. All (HasLengths spec.now) arms.now) }
    ensures met { IfOk result (λ _. (skip : Option (List ℕ)) → of.arms_unmet (of.made_unmet spec.now) (of.arm_weight spec.now) 1 0 arms.now skip ≡ of.first_or (length arms.now + 1) (of.skip_unmet skip) None) }
    ensures refused { IfErr result (λ fault. (skip : Option (List ℕ)) → IsRefusedAt fault (of.arms_unmet (of.made_unmet spec.now) (of.arm_weight spec.now) 1 0 arms.now skip)) }
{
    let mut before = 0;
    for (i, arm) in arms.iter().enumerate() {
        let measures = arm_measures(alloc, spec, table, &arm.pattern)?;
        if let Some(condition) = unmet_made(spec, before, &measures) {
            return Err(StatementFault::Unmet {
                arm: i as u64 + 1,
                condition,
            });
        }
        before += measures.weight;
    }
    Ok(())
}

// The first condition that is unmet of those that are asked of such an arm's pattern, where these are its measures.
fn unmet_made(spec: &Spec, before: u64, measures: &ArmMeasures) -> Option<u8>
    requires { before ≤ 16384 }
    ensures { (arm : ArmOf) → AreArmMeasures spec.now arm.pattern measures.now → result ≡ of.made_unmet spec.now before arm }
{
    if let Some(condition) = unmet_form(spec, measures) {
        return Some(condition);
    }
    unmet_measure(spec, before, measures)
}

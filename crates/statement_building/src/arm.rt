// An arm.
ghost use Rattle.std.specs.Prelude.{◌≡◌, ◌<◌, ◌≤◌, ◌^◌, true, length, map, None, IfOk, IfErr, All};
ghost use Rattle.application_measures.specs.Arms.{AreArmMeasures};
ghost use Rattle.application_measures.specs.Tables.{IsApplicationTableOf};
ghost use Rattle.arm_meaning.specs.Bindings.{IsBindingsOf};
ghost use Rattle.asm_text.specs.Actions.{NamesBelow};
ghost use Rattle.constructor_meaning.specs.Sound.{IsSoundScope};
ghost use Rattle.constructor_meaning.specs.Unmet.{first_unmet};
ghost use Rattle.matchable_arms.specs.Arms.{HasMatchLengths};
ghost use Rattle.sled_model.specs.declared.pattern.Pattern.{Pattern as PatternOf};
ghost use Rattle.sled_model.specs.Measures.{pattern_weight};
ghost use Rattle.sled_parser.specs.declared.tree.PatternTree.{PatternTree as PatternTreeOf};
ghost use Rattle.statement_building.specs.Conditions as of;
ghost use Rattle.statement_building.specs.Faults.{IsUnmetAs};
ghost use Rattle.statement_building.specs.Statements.{HasArmInRange, arm_of};
ghost use Rattle.tree_meaning.specs.NameTables.{table_names};
ghost use Rattle.tree_meaning.specs.Parts.{parts as parts_in};
ghost use Rattle.tree_meaning.specs.Patterns.{has_all_in_range};
ghost use Rattle.tree_meaning.specs.Scopes.{Declared, declared_in};

use crate::fault::ArmFault;
use crate::unmet::{unmet_form, unmet_measure};
use application_measures::{ApplicationTable, ArmMeasures, arm_measures};
use arm_actions::pieces_of_action;
use arm_meaning::{Bindings, are_known_in_arm, arm_bindings, arm_pattern};
use sled_base::NoMemory;
use sled_model::{Arm, Name, NameList, Spec};
use sled_parser::tree::{ArmTree, PatternTree};
use std::alloc::Global;
use tree_meaning::{NameTable, Scope, generate_nothing, labels_are_new, numbers_fit, parts_of};

/// An arm, and the weight of its pattern.
#[derive(Drop)]
pub(crate) struct WeighedArm {
    pub(crate) arm: Arm,
    pub(crate) weight: u64,
}

/// The arm that the tree makes, or the first condition that it does not meet. The arms before it weigh so much.
pub(crate) fn make_arm(
    alloc: Global,
    spec: &Spec,
    scope: &Scope<'_>,
    table: &ApplicationTable,
    before: u64,
    tree: &ArmTree,
) -> Result<WeighedArm, ArmFault>
    requires sound { IsSoundScope spec.now (declared_in scope.now) }
    requires table { IsApplicationTableOf spec.now table.now }
    requires numbers { HasArmInRange tree.now }
    requires before { before ≤ 16384 }
    ensures made { IfOk result (λ made. made.arm ≡ arm_of spec.now (declared_in scope.now) tree.now) }
    ensures weight { IfOk result (λ made. made.weight ≡ pattern_weight spec.now made.arm.pattern) }
    ensures lengths { IfOk result (λ made. HasMatchLengths spec.now made.arm.pattern) }
    ensures action { IfOk result (λ made. All (NamesBelow (length made.arm.names)) made.arm.action) }
    ensures met { IfOk result (λ _. of.arm_unmet spec.now (declared_in scope.now) before tree.now ≡ None) }
    ensures refused { IfErr result (λ fault. IsUnmetAs fault (of.arm_unmet spec.now (declared_in scope.now) before tree.now)) }
{
    let parts = parts_of(alloc, &tree.pattern)?;
    if let Some(condition) = unmet_naming(spec, scope, &tree.pattern, parts.as_slice()) {
        return Err(ArmFault::Unmet(condition));
    }
    let bindings = arm_bindings(alloc, scope, &tree.pattern)?;
    if bindings.names.len() > u32::MAX as usize {
        return Err(ArmFault::NoMemory);
    }
    let pattern = arm_pattern(alloc, spec, scope, &bindings.names, &tree.pattern)?;
    let measures = arm_measures(alloc, spec, table, &pattern)?;
    if let Some(condition) = unmet_forming(spec, before, &bindings, &measures) {
        return Err(ArmFault::Unmet(condition));
    }
    let Some(action) = pieces_of_action(alloc, &bindings.names, tree.action.as_slice())? else {
        return Err(ArmFault::Unmet(16));
    };
    let names = name_list(alloc, &bindings.names)?;
    Ok(WeighedArm {
        arm: Arm {
            pattern,
            names,
            action,
        },
        weight: measures.weight,
    })
}

// The first condition on names and numbers that is unmet.
fn unmet_naming(
    spec: &Spec,
    scope: &Scope<'_>,
    tree: &PatternTree,
    parts: &[&PatternTree],
) -> Option<u8>
    requires sound { IsSoundScope spec.now (declared_in scope.now) }
    requires parts { map (λ x. x.now) parts.now ≡ parts_in tree.now }
    requires numbers { has_all_in_range tree.now ≡ true }
    ensures { result ≡ first_unmet (of.naming_conditions spec.now (declared_in scope.now) tree.now) }
{
    if !labels_are_new(scope, parts) {
        return Some(1);
    }
    if !are_known_in_arm(spec, scope, parts) {
        return Some(2);
    }
    if !numbers_fit(&spec.tokens, scope, parts) {
        return Some(4);
    }
    if !generate_nothing(parts) {
        return Some(5);
    }
    None
}

// The first condition that is unmet on what the pattern is made of, and on what the tree binds.
fn unmet_forming(
    spec: &Spec,
    before: u64,
    bindings: &Bindings<'_>,
    measures: &ArmMeasures,
) -> Option<u8>
    requires { before ≤ 16384 }
    ensures { (declared : Declared) (tree : PatternTreeOf) (p : PatternOf) → IsBindingsOf declared tree bindings.now → AreArmMeasures spec.now p measures.now
        → result ≡ first_unmet (of.forming_conditions spec.now declared before tree p) }
{
    if let Some(condition) = unmet_form(spec, measures) {
        return Some(condition);
    }
    if !bindings.alike {
        return Some(8);
    }
    if !bindings.once {
        return Some(9);
    }
    unmet_measure(spec, before, measures)
}

fn name_list(alloc: Global, names: &NameTable<'_>) -> Result<NameList, NoMemory>
    ensures { IfOk result (λ list. list ≡ table_names names.now) }
{
    let mut list = NameList::new(alloc);
    for name in names.as_slice() {
        list.push(Name::from_slice(alloc, *name)?)?;
    }
    Ok(list)
}

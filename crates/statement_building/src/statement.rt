// Statements.
ghost use Rattle.std.specs.Prelude.{◌≡◌, ◌+◌, All, None, Some, ℕ, List, Option, length, map, option_map, IfOk, IfErr, IfSome};
ghost use Rattle.application_measures.specs.Tables.{IsApplicationTableOf};
ghost use Rattle.arm_meaning.specs.All.{all_arms as all_arms_of};
ghost use Rattle.constructor_meaning.specs.Sound.{IsSoundScope};
ghost use Rattle.constructor_readings.specs.Accepted.{HasReadings};
ghost use Rattle.match_meaning.specs.Matchable.{IsMatchable, IsMatchableArm};
ghost use Rattle.matchable_arms.specs.Once.{OperandsStandOnce};
ghost use Rattle.sled_lexer.specs.Spelled.{number_value};
ghost use Rattle.sled_model.specs.PlainStatements.{IsMatchLength};
ghost use Rattle.sled_model.specs.Specs.{IsSpec};
ghost use Rattle.statement_building.specs.Conditions as of;
ghost use Rattle.statement_building.specs.Faults.{IsRefusedAt};
ghost use Rattle.statement_building.specs.Statements.{HasArmInRange, HaveArmsInRange, arm_of, arms_of, statement_of};
ghost use Rattle.tree_meaning.specs.Scopes.{declared_in};

use crate::all::check_all;
use crate::arm::make_arm;
use crate::fault::{ArmFault, StatementFault};
use application_measures::ApplicationTable;
use arm_meaning::all_arms;
use sled_lexer::number_in_range;
use sled_model::{ArmList, Spec, Statement};
use sled_parser::tree::{ArmTree, ArmsTree, MatchTree, Spelling};
use std::alloc::Global;
use tree_meaning::Scope;

/// The statement that the tree stands for over an accepted description, whose names are in scope, or the first arm that does not meet a
/// condition. `all` stands for one arm for each constructor of an instruction, in order. A skip outside of 1 to 32 is charged to the arm
/// past the last. Each Number in the trees is at most 4,294,967,295.
///
/// What comes out can be matched: each result of each arm takes 1 to 32 bytes, and each instance in it can be read. `NoMemory` also where an
/// arm binds more names than a number of 32 bits tells.
pub fn elaborate_match(
    alloc: Global,
    spec: &Spec,
    scope: &Scope<'_>,
    tree: &MatchTree,
) -> Result<Statement, StatementFault>
    requires sound { IsSoundScope spec.now (declared_in scope.now) }
    requires readings { HasReadings spec.now }
    requires once { OperandsStandOnce spec.now }
    requires numbers { HaveArmsInRange tree.now.arms }
    ensures made { IfOk result (λ statement. statement ≡ statement_of spec.now (declared_in scope.now) tree.now) }
    ensures matchable { IfOk result (IsMatchable spec.now) }
    ensures met { IfOk result (λ _. of.statement_unmet spec.now (declared_in scope.now) tree.now ≡ None) }
    ensures refused { IfErr result (λ fault. IsRefusedAt fault (of.statement_unmet spec.now (declared_in scope.now) tree.now)) }
{
    let arms = arms_of_tree(alloc, spec, scope, &tree.arms)?;
    match skip_of(&tree.skip) {
        Ok(skip) => Ok(Statement { arms, skip }),
        Err(condition) => Err(StatementFault::Unmet {
            arm: arms.len() as u64 + 1,
            condition,
        }),
    }
}

// How many bytes to skip, or the condition that the number does not meet.
fn skip_of(skip: &Option<Spelling>) -> Result<Option<u8>, u8>
    ensures made { IfOk result (λ made. made ≡ option_map number_value skip.now) }
    ensures within { IfOk result (λ made. IfSome made IsMatchLength) }
    ensures met { IfOk result (λ _. of.skip_unmet skip.now ≡ None) }
    ensures refused { IfErr result (λ condition. of.skip_unmet skip.now ≡ Some condition) }
{
    let Some(number) = skip else {
        return Ok(None);
    };
    match number_in_range(number.as_slice()) {
        Some(count) if 1 <= count && count <= 32 => Ok(Some(count as u8)),
        _ => Err(14),
    }
}

// The arms, or the first that does not meet a condition.
fn arms_of_tree(
    alloc: Global,
    spec: &Spec,
    scope: &Scope<'_>,
    tree: &ArmsTree,
) -> Result<ArmList, StatementFault>
    requires sound { IsSoundScope spec.now (declared_in scope.now) }
    requires readings { HasReadings spec.now }
    requires once { OperandsStandOnce spec.now }
    requires numbers { HaveArmsInRange tree.now }
    ensures made { IfOk result (λ arms. arms ≡ arms_of spec.now (declared_in scope.now) tree.now) }
    ensures matchable { IfOk result (All (IsMatchableArm spec.now)) }
    ensures met { IfOk result (λ arms. (skip : Option (List ℕ)) → of.written_unmet spec.now (declared_in scope.now) tree.now skip ≡ of.first_or (length arms + 1) (of.skip_unmet skip) None) }
    ensures refused { IfErr result (λ fault. (skip : Option (List ℕ)) → IsRefusedAt fault (of.written_unmet spec.now (declared_in scope.now) tree.now skip)) }
{
    let table = ApplicationTable::of(alloc, spec)?;
    match tree {
        ArmsTree::All => made_arms(alloc, spec, &table),
        ArmsTree::Listed(trees) => listed_arms(alloc, spec, scope, &table, trees.as_slice()),
    }
}

// One for each constructor of an instruction.
fn made_arms(
    alloc: Global,
    spec: &Spec,
    table: &ApplicationTable,
) -> Result<ArmList, StatementFault>
    requires sound { IsSpec spec.now }
    requires readings { HasReadings spec.now }
    requires once { OperandsStandOnce spec.now }
    requires table { IsApplicationTableOf spec.now table.now }
    ensures made { IfOk result (λ arms. arms ≡ all_arms_of spec.now) }
    ensures matchable { IfOk result (All (IsMatchableArm spec.now)) }
    ensures met { IfOk result (λ arms. (skip : Option (List ℕ)) → of.arms_unmet (of.made_unmet spec.now) (of.arm_weight spec.now) 1 0 (all_arms_of spec.now) skip ≡ of.first_or (length arms + 1) (of.skip_unmet skip) None) }
    ensures refused { IfErr result (λ fault. (skip : Option (List ℕ)) → IsRefusedAt fault (of.arms_unmet (of.made_unmet spec.now) (of.arm_weight spec.now) 1 0 (all_arms_of spec.now) skip)) }
{
    let arms = all_arms(alloc, spec)?;
    check_all(alloc, spec, table, arms.as_slice())?;
    Ok(arms)
}

// Those that are written out.
fn listed_arms(
    alloc: Global,
    spec: &Spec,
    scope: &Scope<'_>,
    table: &ApplicationTable,
    trees: &[ArmTree],
) -> Result<ArmList, StatementFault>
    requires sound { IsSoundScope spec.now (declared_in scope.now) }
    requires readings { HasReadings spec.now }
    requires once { OperandsStandOnce spec.now }
    requires table { IsApplicationTableOf spec.now table.now }
    requires numbers { All HasArmInRange trees.now }
    ensures made { IfOk result (λ arms. arms ≡ map (arm_of spec.now (declared_in scope.now)) trees.now) }
    ensures matchable { IfOk result (All (IsMatchableArm spec.now)) }
    ensures met { IfOk result (λ _. (skip : Option (List ℕ)) → of.arms_unmet (of.arm_unmet spec.now (declared_in scope.now)) (of.tree_weight spec.now (declared_in scope.now)) 1 0 trees.now skip ≡ of.first_or (length trees.now + 1) (of.skip_unmet skip) None) }
    ensures refused { IfErr result (λ fault. (skip : Option (List ℕ)) → IsRefusedAt fault (of.arms_unmet (of.arm_unmet spec.now (declared_in scope.now)) (of.tree_weight spec.now (declared_in scope.now)) 1 0 trees.now skip)) }
{
    let mut arms = ArmList::new(alloc);
    let mut before = 0;
    for (i, tree) in trees.iter().enumerate() {
        match make_arm(alloc, spec, scope, table, before, tree) {
            Ok(made) => {
                before += made.weight;
                arms.push(made.arm)?;
            }
            Err(ArmFault::Unmet(condition)) => {
                return Err(StatementFault::Unmet {
                    arm: i as u64 + 1,
                    condition,
                });
            }
            Err(ArmFault::NoMemory) => return Err(StatementFault::NoMemory),
        }
    }
    Ok(arms)
}

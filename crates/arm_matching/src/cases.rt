// The cases of all arms in one list.
ghost use Rattle.std.specs.Prelude.{◌≡◌, ◌++◌, ◌≤◌, length, map, replicate, All, IfOk, OnOk};
ghost use Rattle.sled_model.specs.Specs.{IsSpec};
ghost use Rattle.match_meaning.specs.Matchable.{IsMatchableArm};
ghost use Rattle.arm_matching.specs.Matcher.{AreCasesOf, AreCasesOfArms, bits_of as bits_of_case};

use bit_cases::ByteCase;
use pattern_normal::{Case, CaseList, cases_of};
use sled_base::NoMemory;
use sled_model::{Arm, Spec};
use sqlite_items::Items;
use std::alloc::Global;

/// The cases of the arms, in order, and beside each the number of its arm.
#[derive(Drop)]
pub(crate) struct ArmCases {
    pub(crate) arms: Items<usize>,
    pub(crate) cases: CaseList,
}

/// The cases of these arms.
pub(crate) fn arm_cases(alloc: Global, spec: &Spec, arms: &[Arm]) -> Result<ArmCases, NoMemory>
    requires spec { IsSpec spec.now }
    requires arms { All (IsMatchableArm spec.now) arms.now }
    ensures { IfOk result (λ all. AreCasesOfArms spec.now arms.now all.arms all.cases) }
{
    let mut all = ArmCases {
        arms: Items::new(alloc),
        cases: Items::new(alloc),
    };
    for (k, arm) in arms.iter().enumerate() {
        let cases = one_arm(alloc, spec, arm)?;
        push_times(&mut all.arms, k, cases.len())?;
        all.cases.append(cases)?;
    }
    Ok(all)
}

/// The cases of one arm.
fn one_arm(alloc: Global, spec: &Spec, arm: &Arm) -> Result<CaseList, NoMemory>
    requires spec { IsSpec spec.now }
    requires arm { IsMatchableArm spec.now arm.now }
    ensures { IfOk result (AreCasesOf spec.now arm.now) }
{
    cases_of(alloc, spec, &arm.pattern)
}

/// The number, so many times.
fn push_times(numbers: &mut Items<usize>, number: usize, times: usize) -> Result<(), NoMemory>
    ensures { OnOk result (numbers.new ≡ numbers.old ++ replicate times number) }
{
    for _time in 0..times {
        numbers.push(number)?;
    }
    Ok(())
}

/// The conditions of the cases.
pub(crate) fn bits_of(alloc: Global, cases: &[Case]) -> Result<Vec<ByteCase>, NoMemory>
    ensures { IfOk result (λ bits. bits.items ≡ map bits_of_case cases.now) }
{
    let mut bits = Vec::new(alloc);
    for case in cases {
        bits.push(case.bits)?;
    }
    Ok(bits)
}

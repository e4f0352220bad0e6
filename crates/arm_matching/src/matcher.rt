// Statements that are made ready to be matched.
ghost use Rattle.std.specs.Prelude.{◌≡◌, ◌+◌, ◌<◌, ◌≤◌, length, IfOk, IfSome, option_map};
ghost use Rattle.decision_tree.specs.Trees.{asks};
ghost use Rattle.sled_model.specs.First.{first};
ghost use Rattle.pattern_normal.specs.Alternatives.{IsBytes};
ghost use Rattle.match_meaning.specs.Matchable.{IsMatchable};
ghost use Rattle.arm_matching.specs.Matcher.{IsReady, first_place, numbered, result_told};

use crate::cases::{arm_cases, bits_of};
use decision_tree::{Peek, Tree, build};
use pattern_normal::{CaseList, Skeleton};
use sled_base::NoMemory;
use sled_model::{Spec, Statement};
use sqlite_items::Items;
use std::alloc::Global;

/// A statement made ready to be matched: the cases of all arms in one decision graph, and beside each the number of its arm.
#[derive(Drop)]
pub struct Matcher<'a> {
    pub(crate) spec: &'a Spec,
    pub(crate) statement: &'a Statement,
    pub(crate) tree: Tree,
    pub(crate) arms: Items<usize>,
    pub(crate) cases: CaseList,
}

/// A result of an arm on a window: the number of the arm, how many bytes it takes, and what it binds, without the values.
#[derive(Clone, Copy)]
pub struct ArmResult<'m> {
    /// The number of the arm, counted from 0.
    pub arm: usize,
    /// How many bytes it takes, at most 32.
    pub len: u8,
    /// What it binds, to be read from the window.
    pub skeleton: &'m Skeleton,
}

/// The statement, ready to be matched. `NoMemory` where there is no memory, and where the arms have 2^32 cases or more, which take more
/// than 2^38 bytes: a number of 32 bits names each case in the graph.
pub fn compile<'a>(
    alloc: Global,
    spec: &'a Spec,
    statement: &'a Statement,
) -> Result<Matcher<'a>, NoMemory>
    requires { IsMatchable spec.now statement.now }
    ensures spec { IfOk result (λ matcher. matcher.spec.now ≡ spec.now) }
    ensures statement { IfOk result (λ matcher. matcher.statement.now ≡ statement.now) }
    ensures ready { IfOk result IsReady }
{
    let all = arm_cases(alloc, spec, statement.arms.as_slice())?;
    let bits = bits_of(alloc, all.cases.as_slice())?;
    if bits.len() as u64 >= 1u64 << 32 {
        return Err(NoMemory);
    }
    let tree = build(alloc, &bits)?;
    Ok(Matcher {
        spec,
        statement,
        tree,
        arms: all.arms,
        cases: all.cases,
    })
}

impl<'a> Matcher<'a> {
    /// The first result of the first arm that has one on the window, or None where no arm has one. It asks the window for at most what
    /// the graph's walk asks for, and takes no memory.
    pub fn first_result(&self, window: &mut Peek<'_>) -> Option<ArmResult<'_>>
        requires { IsReady self.now }
        ensures first { option_map (result_told self.now.spec.now.tokens window.old.window.now) result
            ≡ option_map numbered (first self.now.spec.now self.now.statement.now window.old.window.now) }
        ensures window { window.new.window.now ≡ window.old.window.now }
        ensures asked { window.new.asked ≤ window.old.asked + asks self.now.tree window.old.window.now }
    {
        are_bytes(window.window());
        let at = self.first_case(window)?;
        let case = &self.cases.as_slice()[at];
        Some(ArmResult {
            arm: self.arms.as_slice()[at],
            len: case.bits.len,
            skeleton: &case.bind,
        })
    }

    /// The place of the first case that the window meets.
    fn first_case(&self, window: &mut Peek<'_>) -> Option<usize>
        requires { IsReady self.now }
        ensures first { result ≡ first_place self.now window.old.window.now }
        ensures within { IfSome result (λ at. at < length self.now.cases) }
        ensures window { window.new.window.now ≡ window.old.window.now }
        ensures asked { window.new.asked ≤ window.old.asked + asks self.now.tree window.old.window.now }
    {
        let number = self.tree.decide(window)?;
        Some(number.0 as usize)
    }

    /// The decision graph, in which each case of each arm is one condition.
    pub fn tree(&self) -> &Tree
        ensures { result.now ≡ self.now.tree }
    {
        &self.tree
    }
}

/// Each byte is below 256. It does nothing: its contract is what it is for.
fn are_bytes(bytes: &[u8])
    ensures { IsBytes bytes.now }
{
    let _bytes = bytes;
}

//! Statements: what is matched, and what a match is written as.

ghost use Rattle.std.specs.Prelude.{◌≡◌};
ghost use Rattle.sled_parser.specs.Pieces.{Reads};
ghost use Rattle.sled_parser.specs.StatementGrammar as spec;

use crate::class::Class;
use crate::cursor::Cursor;
use crate::fault::Fault;
use crate::pattern::{number, pattern};
use crate::tree::{ArmTree, ArmTreeList, ArmsTree, MatchTree, Spelling};
use std::alloc::Global;

#[tactic(auto, unfolding(crate::specs::StatementGrammar::action))]
fn action(alloc: Global, cursor: &mut Cursor<'_>) -> Result<Spelling, Fault>
    ensures { Reads (spec.action cursor.old) result cursor.new }
{
    if cursor.sees(Class::Text) {
        cursor.take(alloc)
    } else {
        Err(Fault::Syntax)
    }
}

/// What stands after `case`.
#[tactic(auto, unfolding(crate::specs::StatementGrammar::arm_at))]
fn arm(alloc: Global, cursor: &mut Cursor<'_>, depth: u32) -> Result<ArmTree, Fault>
    ensures { Reads (spec.arm_at depth cursor.old) result cursor.new }
{
    let pattern = pattern(alloc, cursor, depth)?;
    cursor.expect(Class::Arrow)?;
    let action = action(alloc, cursor)?;
    Ok(ArmTree { pattern, action })
}

/// Arms, as many as come.
#[tactic(auto, unfolding(crate::specs::StatementGrammar::arms_from))]
fn listed_arms(alloc: Global, cursor: &mut Cursor<'_>, depth: u32) -> Result<ArmTreeList, Fault>
    ensures { Reads (spec.listed_arms depth cursor.old) result cursor.new }
{
    let mut found = ArmTreeList::new(alloc);
    for _turn in 0..cursor.left() {
        if !cursor.eat(Class::Case) {
            return Ok(found);
        }
        found.push(arm(alloc, cursor, depth)?)?;
    }
    Ok(found)
}

#[tactic(auto, unfolding(crate::specs::StatementGrammar::arms_at))]
fn arms(alloc: Global, cursor: &mut Cursor<'_>, depth: u32) -> Result<ArmsTree, Fault>
    ensures { Reads (spec.arms_at depth cursor.old) result cursor.new }
{
    if cursor.eat(Class::All) {
        return Ok(ArmsTree::All);
    }
    Ok(ArmsTree::Listed(listed_arms(alloc, cursor, depth)?))
}

#[tactic(auto, unfolding(crate::specs::StatementGrammar::skip_of))]
fn skip(alloc: Global, cursor: &mut Cursor<'_>) -> Result<Option<Spelling>, Fault>
    ensures { Reads (spec.skip_of cursor.old) result cursor.new }
{
    if !cursor.eat(Class::Else) {
        return Ok(None);
    }
    cursor.expect(Class::Skip)?;
    Ok(Some(number(alloc, cursor)?))
}

#[tactic(auto, unfolding(crate::specs::StatementGrammar::statement_at))]
fn statement(alloc: Global, cursor: &mut Cursor<'_>, depth: u32) -> Result<MatchTree, Fault>
    ensures { Reads (spec.statement_at depth cursor.old) result cursor.new }
{
    cursor.expect(Class::Match)?;
    let arms = arms(alloc, cursor, depth)?;
    let skip = skip(alloc, cursor)?;
    Ok(MatchTree { arms, skip })
}

/// A statement, and nothing behind it.
#[tactic(auto, unfolding(crate::specs::StatementGrammar::whole_statement))]
pub fn whole_statement(
    alloc: Global,
    cursor: &mut Cursor<'_>,
    depth: u32,
) -> Result<MatchTree, Fault>
    ensures { Reads (spec.whole_statement depth cursor.old) result cursor.new }
{
    let tree = statement(alloc, cursor, depth)?;
    cursor.finish()?;
    Ok(tree)
}

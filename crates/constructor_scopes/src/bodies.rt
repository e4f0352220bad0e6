// The bodies of the constructors that a declaration makes.
ghost use Rattle.std.specs.Prelude.{◌≡◌, ◌<◌, ◌+◌, ◌^◌, ◌++◌, ◌∷◌, [], IfOk, OnOk, None, Some, false, true, length, map, take};
ghost use Rattle.constructor_scopes.specs.Bodies as of;
ghost use Rattle.constructor_scopes.specs.Views.{made, made_for, IsOfGroup};
ghost use Rattle.tree_meaning.specs.Names.{is_among};
ghost use Rattle.tree_meaning.specs.NameTables.{table_names};
ghost use Rattle.tree_meaning.specs.Patterns.{has_all_in_range, patterns_of as patterns_in};
ghost use Rattle.tree_meaning.specs.Scopes.{Declared, declared_in};

use crate::members::{Makings, Member};
use sled_base::NoMemory;
use sled_model::{Pattern, PatternList};
use sled_parser::tree::PatternTree;
use std::alloc::Global;
use tree_meaning::{Meaning, NameTable, Scope, patterns_of};

/// The first of the patterns, or no bytes where there is none.
pub fn first_of(mut patterns: PatternList) -> Pattern
    ensures { result ≡ of.first_of patterns }
{
    if patterns.is_empty() {
        Pattern::Empty
    } else {
        patterns.remove(0)
    }
}

/// The body of each constructor of the declaration, in order, in the scope of its operands. The labels are numbered by their places among
/// `labels`. The scope keeps its declared names; of its local ones nothing is said.
pub fn bodies_of<'a>(
    alloc: Global,
    scope: &mut Scope<'a>,
    opcode: &'a [u8],
    makings: &Makings<'a>,
    labels: &NameTable<'_>,
    body: &PatternTree,
) -> Result<PatternList, NoMemory>
    requires fresh { IsOfGroup makings.now → is_among (declared_in scope.old).local_names opcode.now ≡ false }
    requires labels { length (table_names labels.now) < 2 ^ 32 }
    requires numbers { has_all_in_range body.now ≡ true }
    ensures bodies { IfOk result (λ ps. ps ≡ of.bodies_of (declared_in scope.old) opcode.now (table_names labels.now) body.now (made makings.now)) }
    ensures kept { OnOk result (of.without_locals (declared_in scope.new) ≡ of.without_locals (declared_in scope.old)) }
{
    match makings {
        Makings::Lone(_) => lone_body(alloc, scope, labels, body),
        Makings::Members(members) => {
            let at = scope.local_meanings.len();
            scope.enter(opcode, Meaning::Pattern(Pattern::Empty))?;
            let bodies = member_bodies(alloc, scope, at, members.as_slice(), labels, body)?;
            Ok(bodies)
        }
    }
}

fn lone_body(
    alloc: Global,
    scope: &Scope<'_>,
    labels: &NameTable<'_>,
    body: &PatternTree,
) -> Result<PatternList, NoMemory>
    requires labels { length (table_names labels.now) < 2 ^ 32 }
    requires numbers { has_all_in_range body.now ≡ true }
    ensures { IfOk result (λ ps. ps ≡ of.first_of (patterns_in (declared_in scope.now) (table_names labels.now) body.now) ∷ []) }
{
    let mut bodies = PatternList::new(alloc);
    bodies.push(first_of(patterns_of(alloc, scope, labels, body)?))?;
    Ok(bodies)
}

// The body for each member, which the local name of this number stands for in turn.
fn member_bodies(
    alloc: Global,
    scope: &mut Scope<'_>,
    at: usize,
    members: &[Member<'_>],
    labels: &NameTable<'_>,
    body: &PatternTree,
) -> Result<PatternList, NoMemory>
    requires last { length (declared_in scope.old).local_meanings ≡ at + 1 }
    requires labels { length (table_names labels.now) < 2 ^ 32 }
    requires numbers { has_all_in_range body.now ≡ true }
    ensures bodies { IfOk result (λ ps. ps ≡ map (λ m. of.first_of (patterns_in (of.with_last (declared_in scope.old) at m.pattern) (table_names labels.now) body.now)) members.now) }
    ensures kept { OnOk result (of.without_locals (declared_in scope.new) ≡ of.without_locals (declared_in scope.old)) }
{
    let mut bodies = PatternList::new(alloc);
    for member in members {
        bodies.push(body_with(alloc, scope, at, &member.pattern, labels, body)?)?;
    }
    Ok(bodies)
}

// The body where the local name of this number stands for the pattern.
fn body_with(
    alloc: Global,
    scope: &mut Scope<'_>,
    at: usize,
    pattern: &Pattern,
    labels: &NameTable<'_>,
    body: &PatternTree,
) -> Result<Pattern, NoMemory>
    requires last { length (declared_in scope.old).local_meanings ≡ at + 1 }
    requires labels { length (table_names labels.now) < 2 ^ 32 }
    requires numbers { has_all_in_range body.now ≡ true }
    ensures scope { OnOk result (declared_in scope.new ≡ of.with_last (declared_in scope.old) at pattern.now) }
    ensures body { IfOk result (λ p. p ≡ of.first_of (patterns_in (of.with_last (declared_in scope.old) at pattern.now) (table_names labels.now) body.now)) }
{
    scope.set_local(at, Meaning::Pattern(pattern.copy(alloc)?));
    let patterns = patterns_of(alloc, scope, labels, body)?;
    Ok(first_of(patterns))
}

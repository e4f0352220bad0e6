// The patterns of arms.
ghost use Rattle.std.specs.Prelude.{◌≡◌, ◌<◌, ◌^◌, length, map, true, IfOk};
ghost use Rattle.std.specs.List.{list_all};
ghost use Rattle.sled_model.specs.Specs.{IsSpec};
ghost use Rattle.tree_meaning.specs.NameTables.{table_names};
ghost use Rattle.tree_meaning.specs.Patterns.{has_all_in_range};
ghost use Rattle.tree_meaning.specs.Scopes.{declared_in};
ghost use Rattle.arm_meaning.specs.Patterns as of;

use crate::applications::{application, application_fits, label_number};
use sled_base::NoMemory;
use sled_model::{Pattern, PatternList, Spec};
use sled_parser::tree::PatternTree;
use sqlite_items::Boxed;
use std::alloc::Global;
use tree_meaning::{NameTable, Scope, Site, are_known, patterns_of};

/// Whether each name in the parts of an arm's pattern was declared, as something that may stand there, and each application fits.
pub fn are_known_in_arm(spec: &Spec, scope: &Scope<'_>, parts: &[&PatternTree]) -> bool
    requires { IsSpec spec.now }
    ensures { result ≡ list_all (λ x. of.is_known_in_arm spec.now (declared_in scope.now) x.now) parts.now }
{
    for part in parts {
        if !is_known(spec, scope, *part) {
            return false;
        }
    }
    true
}

fn is_known(spec: &Spec, scope: &Scope<'_>, part: &PatternTree) -> bool
    requires { IsSpec spec.now }
    ensures { result ≡ of.is_known_in_arm spec.now (declared_in scope.now) part.now }
{
    match part {
        PatternTree::Apply {
            constructor,
            arguments,
        } => application_fits(spec, constructor.as_slice(), arguments.as_slice()),
        _ => are_known(Site::Arm, scope, &[part]),
    }
}

// The first of the patterns, or no bytes where there is none.
fn first_of(mut patterns: PatternList) -> Pattern
    ensures { result ≡ of.first_pattern patterns }
{
    if patterns.is_empty() {
        Pattern::Empty
    } else {
        patterns.remove(0)
    }
}

#[cycle(pattern)]
fn member_patterns(
    alloc: Global,
    spec: &Spec,
    scope: &Scope<'_>,
    names: &NameTable<'_>,
    members: &[PatternTree],
) -> Result<PatternList, NoMemory>
    requires sound { IsSpec spec.now }
    requires names { length (table_names names.now) < 2 ^ 32 }
    requires numbers { list_all has_all_in_range members.now ≡ true }
    ensures { IfOk result (λ ps. ps ≡ map (of.arm_pattern spec.now (declared_in scope.now) (table_names names.now)) members.now) }
{
    let mut made = PatternList::new(alloc);
    for member in members {
        made.push(arm_pattern(alloc, spec, scope, names, member)?)?;
    }
    Ok(made)
}

#[cycle(pattern)]
fn boxed_pattern(
    alloc: Global,
    spec: &Spec,
    scope: &Scope<'_>,
    names: &NameTable<'_>,
    tree: &PatternTree,
) -> Result<Boxed<Pattern>, NoMemory>
    requires sound { IsSpec spec.now }
    requires names { length (table_names names.now) < 2 ^ 32 }
    requires numbers { has_all_in_range tree.now ≡ true }
    ensures { IfOk result (λ p. p ≡ of.arm_pattern spec.now (declared_in scope.now) (table_names names.now) tree.now) }
{
    let pattern = arm_pattern(alloc, spec, scope, names, tree)?;
    Ok(Boxed::new(alloc, pattern)?)
}

/// The pattern of an arm that binds these names: the number of a label, and of a name in an application, is its place among them. A
/// generating expression counts as its first number, and a name that was not declared as `epsilon`.
#[tactic(auto, using(crate::proofs::PatternLaws::pattern_laws))]
#[cycle(pattern)]
pub fn arm_pattern(
    alloc: Global,
    spec: &Spec,
    scope: &Scope<'_>,
    names: &NameTable<'_>,
    tree: &PatternTree,
) -> Result<Pattern, NoMemory>
    requires sound { IsSpec spec.now }
    requires names { length (table_names names.now) < 2 ^ 32 }
    requires numbers { has_all_in_range tree.now ≡ true }
    ensures { IfOk result (λ p. p ≡ of.arm_pattern spec.now (declared_in scope.now) (table_names names.now) tree.now) }
{
    match tree {
        PatternTree::Either(members) => Ok(Pattern::Either(member_patterns(
            alloc,
            spec,
            scope,
            names,
            members.as_slice(),
        )?)),
        PatternTree::Chain(members) => Ok(Pattern::Chain(member_patterns(
            alloc,
            spec,
            scope,
            names,
            members.as_slice(),
        )?)),
        PatternTree::Both(members) => Ok(Pattern::Both(member_patterns(
            alloc,
            spec,
            scope,
            names,
            members.as_slice(),
        )?)),
        PatternTree::Labelled { label, pattern } => Ok(Pattern::Label(
            label_number(names, label.as_slice()),
            boxed_pattern(alloc, spec, scope, names, pattern.get())?,
        )),
        PatternTree::Loose(inner) => Ok(Pattern::Loose(boxed_pattern(
            alloc,
            spec,
            scope,
            names,
            inner.get(),
        )?)),
        PatternTree::Group(inner) => arm_pattern(alloc, spec, scope, names, inner.get()),
        PatternTree::Apply {
            constructor,
            arguments,
        } => {
            let name = constructor.as_slice();
            application(alloc, spec, names, name, arguments.as_slice())
        }
        PatternTree::Empty | PatternTree::Word(_) | PatternTree::Limit { .. } => {
            Ok(first_of(patterns_of(alloc, scope, names, tree)?))
        }
    }
}

// The constructors that one declaration makes.
ghost use Rattle.std.specs.Prelude.{◌≡◌, ◌++◌, ◌∷◌, [], ◌+◌, ◌≤◌, length, map, drop, Some, None, List, IfOk, OnOk};
ghost use Rattle.constructor_scopes.specs.Makings as of;
ghost use Rattle.constructor_scopes.specs.Names.{made_names as names_of};
ghost use Rattle.constructor_scopes.specs.Views.{made, made_for};
ghost use Rattle.tree_meaning.specs.NameTables.{table_names};
ghost use Rattle.tree_meaning.specs.Scopes.{declared_in};

use sled_base::NoMemory;
use sled_model::Pattern;
use std::alloc::Global;
use tree_meaning::{Meaning, Scope};

/// A member of a group, with its name.
#[derive(Drop)]
pub struct Member<'a> {
    pub name: &'a [u8],
    pub pattern: Pattern,
}

/// The constructors that a declaration makes, in order.
#[derive(Drop)]
pub enum Makings<'a> {
    /// One, of this name.
    Lone(&'a [u8]),
    /// One for each of these members of the group that is the opcode, named as the member is. In its body the group's name stands for
    /// the member.
    Members(Vec<Member<'a>>),
}

/// The constructors of a declaration with this opcode.
pub fn makings_of<'a>(
    alloc: Global,
    scope: &Scope<'a>,
    opcode: &'a [u8],
) -> Result<Makings<'a>, NoMemory>
    ensures { IfOk result (λ makings. made makings ≡ of.makings (declared_in scope.now) opcode.now) }
{
    match scope.find(opcode) {
        Some(Meaning::Group(patterns)) => {
            members(alloc, names_behind(scope, opcode), patterns.as_slice())
        }
        _ => Ok(Makings::Lone(opcode)),
    }
}

/// The names of the constructors.
pub fn made_names<'a>(alloc: Global, makings: &Makings<'a>) -> Result<Vec<&'a [u8]>, NoMemory>
    ensures { IfOk result (λ names. map (λ x. x.now) names.items ≡ names_of (made makings.now)) }
{
    match makings {
        Makings::Lone(name) => lone_name(alloc, *name),
        Makings::Members(members) => {
            let names = member_names(alloc, members.as_slice())?;
            Ok(names)
        }
    }
}

fn lone_name<'a>(alloc: Global, name: &'a [u8]) -> Result<Vec<&'a [u8]>, NoMemory>
    ensures { IfOk result (λ names. map (λ x. x.now) names.items ≡ name.now ∷ []) }
{
    let mut names = Vec::new(alloc);
    names.push(name)?;
    Ok(names)
}

fn member_names<'a>(alloc: Global, members: &[Member<'a>]) -> Result<Vec<&'a [u8]>, NoMemory>
    ensures { IfOk result (λ names. map (λ x. x.now) names.items ≡ map (λ m. m.name.now) members.now) }
{
    let mut names = Vec::new(alloc);
    for member in members {
        names.push(member.name)?;
    }
    Ok(names)
}

// The names that were declared behind this one.
fn names_behind<'s, 'a>(scope: &'s Scope<'a>, name: &[u8]) -> &'s [&'a [u8]]
    ensures { map (λ x. x.now) result.now ≡ of.names_behind (declared_in scope.now) name.now }
{
    match scope.names.find(name) {
        Some(k) => tail(scope.names.as_slice(), k + 1),
        None => &[],
    }
}

fn tail<'s, 'a>(names: &'s [&'a [u8]], at: usize) -> &'s [&'a [u8]]
    requires { at ≤ length names.now }
    ensures { result.now ≡ drop at names.now }
{
    &names[at..]
}

// Each pattern with its name, as far as there are both.
fn members<'a>(
    alloc: Global,
    names: &[&'a [u8]],
    patterns: &[Pattern],
) -> Result<Makings<'a>, NoMemory>
    ensures { IfOk result (λ makings. made makings ≡ of.one_for_each (map (λ x. x.now) names.now) patterns.now) }
{
    let members = one_for_each(alloc, names, patterns)?;
    Ok(Makings::Members(members))
}

fn one_for_each<'a>(
    alloc: Global,
    names: &[&'a [u8]],
    patterns: &[Pattern],
) -> Result<Vec<Member<'a>>, NoMemory>
    ensures { IfOk result (λ ms. map made_for ms.items ≡ of.one_for_each (map (λ x. x.now) names.now) patterns.now) }
{
    let mut found = Vec::new(alloc);
    let count = names.len().min(patterns.len());
    for i in 0..count {
        push_member(alloc, &mut found, names[i], &patterns[i])?;
    }
    Ok(found)
}

fn push_member<'a>(
    alloc: Global,
    found: &mut Vec<Member<'a>>,
    name: &'a [u8],
    pattern: &Pattern,
) -> Result<(), NoMemory>
    ensures { OnOk result (map made_for found.new.items ≡ map made_for found.old.items ++ record { name = name.now; member = Some pattern.now } ∷ []) }
{
    found.push(Member {
        name,
        pattern: pattern.copy(alloc)?,
    })?;
    Ok(())
}

// What the patterns of arms bind.
ghost use Rattle.std.specs.Prelude.{◌≡◌, ◌&&◌, ◌∷◌, [], true, IfOk, OnOk};
ghost use Rattle.tree_meaning.specs.Names.{merged, are_new, are_distinct, are_same_names};
ghost use Rattle.tree_meaning.specs.NameTables.{table_names};
ghost use Rattle.tree_meaning.specs.Scopes.{declared_in};
ghost use Rattle.arm_meaning.specs.Bound.{argument_names, names_in};
ghost use Rattle.arm_meaning.specs.Bindings.{IsBindingsOf, AreBoundTogether, AreBoundApart};

use sled_base::NoMemory;
use sled_parser::tree::{ArgumentTree, PatternTree};
use std::alloc::Global;
use tree_meaning::{NameTable, Scope, bindings_of};

/// What the pattern of an arm binds.
#[derive(Drop)]
pub struct Bindings<'a> {
    /// The names, each once, in the order in which they first stand there.
    pub names: NameTable<'a>,
    /// No alternative binds a name twice.
    pub once: bool,
    /// In each disjunction all sides bind the same names.
    pub alike: bool,
}

// The bindings of a pattern that holds no other and binds no name twice: these names.
fn plain(names: NameTable<'_>) -> Bindings<'_>
    ensures names { table_names result.names ≡ table_names names.entry }
    ensures once { result.once ≡ true }
    ensures alike { result.alike ≡ true }
{
    Bindings {
        names,
        once: true,
        alike: true,
    }
}

// Adds each name in the arguments, and answers whether none was there before, and none stands in them twice.
#[cycle(arguments)]
fn add_names<'a>(arguments: &'a [ArgumentTree], names: &mut NameTable<'a>) -> Result<bool, NoMemory>
    ensures names { OnOk result (table_names names.new ≡ merged (table_names names.old) (names_in arguments.now)) }
    ensures new { IfOk result (λ new. new ≡ (are_new (table_names names.old) (names_in arguments.now) && are_distinct (names_in arguments.now))) }
{
    let mut all_new = true;
    for argument in arguments {
        let new = add_argument(argument, names)?;
        all_new = all_new && new;
    }
    Ok(all_new)
}

#[cycle(arguments)]
fn add_argument<'a>(argument: &'a ArgumentTree, names: &mut NameTable<'a>) -> Result<bool, NoMemory>
    ensures names { OnOk result (table_names names.new ≡ merged (table_names names.old) (argument_names argument.now)) }
    ensures new { IfOk result (λ new. new ≡ (are_new (table_names names.old) (argument_names argument.now) && are_distinct (argument_names argument.now))) }
{
    match argument {
        ArgumentTree::Any => Ok(true),
        ArgumentTree::Name(name) => names.add(name.as_slice()),
        ArgumentTree::Inner { arguments, .. } => add_names(arguments.as_slice(), names),
    }
}

// The names that stand for operands in an application.
fn applied<'a>(alloc: Global, arguments: &'a [ArgumentTree]) -> Result<Bindings<'a>, NoMemory>
    ensures names { IfOk result (λ b. table_names b.names ≡ merged [] (names_in arguments.now)) }
    ensures once { IfOk result (λ b. b.once ≡ are_distinct (names_in arguments.now)) }
    ensures alike { IfOk result (λ b. b.alike ≡ true) }
{
    let mut names = NameTable::new(alloc);
    let once = add_names(arguments, &mut names)?;
    Ok(Bindings {
        names,
        once,
        alike: true,
    })
}

// The label before the names of the pattern that it stands at.
fn labelled<'a>(
    alloc: Global,
    label: &'a [u8],
    inner: Bindings<'a>,
) -> Result<Bindings<'a>, NoMemory>
    ensures names { IfOk result (λ b. table_names b.names ≡ merged (label.now ∷ []) (table_names inner.entry.names)) }
    ensures once { IfOk result (λ b. b.once ≡ (inner.entry.once && are_new (label.now ∷ []) (table_names inner.entry.names))) }
    ensures alike { IfOk result (λ b. b.alike ≡ inner.entry.alike) }
{
    let mut names = NameTable::new(alloc);
    names.add(label)?;
    let new = names.merge(&inner.names)?;
    Ok(Bindings {
        names,
        once: inner.once && new,
        alike: inner.alike,
    })
}

// The bindings of the first and of what stands beside it.
fn beside<'a>(first: Bindings<'a>, next: Bindings<'a>) -> Result<Bindings<'a>, NoMemory>
    ensures names { IfOk result (λ b. table_names b.names ≡ merged (table_names first.entry.names) (table_names next.entry.names)) }
    ensures once { IfOk result (λ b. b.once ≡ (first.entry.once && next.entry.once && are_new (table_names first.entry.names) (table_names next.entry.names))) }
    ensures alike { IfOk result (λ b. b.alike ≡ (first.entry.alike && next.entry.alike)) }
{
    let mut names = first.names;
    let new = names.merge(&next.names)?;
    Ok(Bindings {
        names,
        once: first.once && next.once && new,
        alike: first.alike && next.alike,
    })
}

// The bindings of the first sides and of one side more. Where the first are alike, each binds the names of all.
fn or_side<'a>(first: Bindings<'a>, side: Bindings<'a>) -> Result<Bindings<'a>, NoMemory>
    ensures names { IfOk result (λ b. table_names b.names ≡ merged (table_names first.entry.names) (table_names side.entry.names)) }
    ensures once { IfOk result (λ b. b.once ≡ (first.entry.once && side.entry.once)) }
    ensures alike { IfOk result (λ b. b.alike ≡ (first.entry.alike && side.entry.alike && are_same_names (table_names first.entry.names) (table_names side.entry.names))) }
{
    let alike = first.alike && side.alike && first.names.has_same_names(&side.names);
    let mut names = first.names;
    names.merge(&side.names)?;
    Ok(Bindings {
        names,
        once: first.once && side.once,
        alike,
    })
}

#[cycle(bindings)]
fn together<'a>(
    alloc: Global,
    scope: &Scope<'_>,
    trees: &'a [PatternTree],
) -> Result<Bindings<'a>, NoMemory>
    ensures { IfOk result (AreBoundTogether (declared_in scope.now) trees.now) }
{
    let mut found = plain(NameTable::new(alloc));
    for tree in trees {
        let next = arm_bindings(alloc, scope, tree)?;
        found = beside(found, next)?;
    }
    Ok(found)
}

#[cycle(bindings)]
fn apart<'a>(
    alloc: Global,
    scope: &Scope<'_>,
    trees: &'a [PatternTree],
) -> Result<Bindings<'a>, NoMemory>
    ensures { IfOk result (AreBoundApart (declared_in scope.now) trees.now) }
{
    let Some((first, rest)) = trees.split_first() else {
        return Ok(plain(NameTable::new(alloc)));
    };
    let mut found = arm_bindings(alloc, scope, first)?;
    for tree in rest {
        let side = arm_bindings(alloc, scope, tree)?;
        found = or_side(found, side)?;
    }
    Ok(found)
}

/// What the pattern of an arm binds, where the scope says which names are fields: these, its labels, and the names that stand for
/// operands in its applications.
#[cycle(bindings)]
pub fn arm_bindings<'a>(
    alloc: Global,
    scope: &Scope<'_>,
    tree: &'a PatternTree,
) -> Result<Bindings<'a>, NoMemory>
    ensures { IfOk result (IsBindingsOf (declared_in scope.now) tree.now) }
{
    match tree {
        PatternTree::Either(sides) => apart(alloc, scope, sides.as_slice()),
        PatternTree::Chain(parts) => together(alloc, scope, parts.as_slice()),
        PatternTree::Both(parts) => together(alloc, scope, parts.as_slice()),
        PatternTree::Labelled { label, pattern } => {
            let inner = arm_bindings(alloc, scope, pattern.get())?;
            labelled(alloc, label.as_slice(), inner)
        }
        PatternTree::Loose(inner) => arm_bindings(alloc, scope, inner.get()),
        PatternTree::Group(inner) => arm_bindings(alloc, scope, inner.get()),
        PatternTree::Apply { arguments, .. } => applied(alloc, arguments.as_slice()),
        PatternTree::Empty | PatternTree::Word(_) | PatternTree::Limit { .. } => {
            Ok(plain(bindings_of(alloc, scope, tree)?.names))
        }
    }
}

// What patterns bind.
ghost use Rattle.std.specs.Prelude.{◌≡◌, ◌&&◌, ◌∷◌, [], true, IfOk, if◌then◌else◌};
ghost use Rattle.tree_meaning.specs.Names.{merged, are_new, are_same_names};
ghost use Rattle.tree_meaning.specs.NameTables.{table_names};
ghost use Rattle.tree_meaning.specs.Scopes.{declared_in};
ghost use Rattle.tree_meaning.specs.Bindings.{are_none, word_binds};
ghost use Rattle.tree_meaning.specs.Bound.{IsBindingsOf, AreBoundTogether, AreBoundApart};

use crate::{Meaning, NameTable, Scope};
use sled_base::NoMemory;
use sled_parser::tree::PatternTree;
use std::alloc::Global;

/// What a pattern binds.
#[derive(Drop)]
pub struct Bindings<'a> {
    /// The names, each once, in the order in which they first stand there.
    pub names: NameTable<'a>,
    /// No alternative binds a name twice.
    pub once: bool,
    /// In each disjunction all sides bind the same names.
    pub alike: bool,
    /// In each disjunction no side binds a name.
    pub free: bool,
}

/// The bindings of a pattern that holds no other: these names.
fn plain(names: NameTable<'_>) -> Bindings<'_>
    ensures names { table_names result.names ≡ table_names names.entry }
    ensures once { result.once ≡ true }
    ensures alike { result.alike ≡ true }
    ensures free { result.free ≡ true }
{
    Bindings {
        names,
        once: true,
        alike: true,
        free: true,
    }
}

/// Whether the word stands for a field or for an operand.
fn is_binding(scope: &Scope<'_>, word: &[u8]) -> bool
    ensures { result ≡ word_binds (declared_in scope.now) word.now }
{
    matches!(
        scope.find(word),
        Some(Meaning::Field(_) | Meaning::Operand(_))
    )
}

/// A bare field binds its name, and so does an operand.
fn word_bindings<'a>(
    alloc: Global,
    scope: &Scope<'_>,
    word: &'a [u8],
) -> Result<Bindings<'a>, NoMemory>
    ensures names { IfOk result (λ b. table_names b.names ≡ (if word_binds (declared_in scope.now) word.now then word.now ∷ [] else [])) }
    ensures once { IfOk result (λ b. b.once ≡ true) }
    ensures alike { IfOk result (λ b. b.alike ≡ true) }
    ensures free { IfOk result (λ b. b.free ≡ true) }
{
    let mut names = NameTable::new(alloc);
    if is_binding(scope, word) {
        names.add(word)?;
    }
    Ok(plain(names))
}

/// The label before the names of the pattern that it stands at.
fn labelled<'a>(
    alloc: Global,
    label: &'a [u8],
    inner: Bindings<'a>,
) -> Result<Bindings<'a>, NoMemory>
    ensures names { IfOk result (λ b. table_names b.names ≡ merged (label.now ∷ []) (table_names inner.entry.names)) }
    ensures once { IfOk result (λ b. b.once ≡ (inner.entry.once && are_new (label.now ∷ []) (table_names inner.entry.names))) }
    ensures alike { IfOk result (λ b. b.alike ≡ inner.entry.alike) }
    ensures free { IfOk result (λ b. b.free ≡ inner.entry.free) }
{
    let mut names = NameTable::new(alloc);
    names.add(label)?;
    let new = names.merge(&inner.names)?;
    Ok(Bindings {
        names,
        once: inner.once && new,
        alike: inner.alike,
        free: inner.free,
    })
}

/// The bindings of the first and of what stands beside it.
fn beside<'a>(first: Bindings<'a>, next: Bindings<'a>) -> Result<Bindings<'a>, NoMemory>
    ensures names { IfOk result (λ b. table_names b.names ≡ merged (table_names first.entry.names) (table_names next.entry.names)) }
    ensures once { IfOk result (λ b. b.once ≡ (first.entry.once && next.entry.once && are_new (table_names first.entry.names) (table_names next.entry.names))) }
    ensures alike { IfOk result (λ b. b.alike ≡ (first.entry.alike && next.entry.alike)) }
    ensures free { IfOk result (λ b. b.free ≡ (first.entry.free && next.entry.free)) }
{
    let mut names = first.names;
    let new = names.merge(&next.names)?;
    Ok(Bindings {
        names,
        once: first.once && next.once && new,
        alike: first.alike && next.alike,
        free: first.free && next.free,
    })
}

/// The bindings of one side alone.
fn one_side(side: Bindings<'_>) -> Bindings<'_>
    ensures names { table_names result.names ≡ table_names side.entry.names }
    ensures once { result.once ≡ side.entry.once }
    ensures alike { result.alike ≡ side.entry.alike }
    ensures free { result.free ≡ are_none (table_names side.entry.names) }
{
    let free = side.names.len() == 0;
    Bindings {
        names: side.names,
        once: side.once,
        alike: side.alike,
        free,
    }
}

/// The bindings of the first sides and of one side more. Where the first are alike, each binds the names of all.
fn or_side<'a>(first: Bindings<'a>, side: Bindings<'a>) -> Result<Bindings<'a>, NoMemory>
    ensures names { IfOk result (λ b. table_names b.names ≡ merged (table_names first.entry.names) (table_names side.entry.names)) }
    ensures once { IfOk result (λ b. b.once ≡ (first.entry.once && side.entry.once)) }
    ensures alike { IfOk result (λ b. b.alike ≡ (first.entry.alike && side.entry.alike && are_same_names (table_names first.entry.names) (table_names side.entry.names))) }
    ensures free { IfOk result (λ b. b.free ≡ (first.entry.free && are_none (table_names side.entry.names))) }
{
    let alike = first.alike && side.alike && first.names.has_same_names(&side.names);
    let free = first.free && side.names.len() == 0;
    let mut names = first.names;
    names.merge(&side.names)?;
    Ok(Bindings {
        names,
        once: first.once && side.once,
        alike,
        free,
    })
}

#[cycle(bindings)]
fn together<'a>(
    alloc: Global,
    scope: &Scope<'_>,
    trees: &'a [PatternTree],
) -> Result<Bindings<'a>, NoMemory>
    ensures { IfOk result (AreBoundTogether (declared_in scope.now) trees.now) }
{
    let mut found = plain(NameTable::new(alloc));
    for tree in trees {
        let next = bindings_of(alloc, scope, tree)?;
        found = beside(found, next)?;
    }
    Ok(found)
}

#[cycle(bindings)]
fn apart<'a>(
    alloc: Global,
    scope: &Scope<'_>,
    trees: &'a [PatternTree],
) -> Result<Bindings<'a>, NoMemory>
    ensures { IfOk result (AreBoundApart (declared_in scope.now) trees.now) }
{
    let Some((first, rest)) = trees.split_first() else {
        return Ok(plain(NameTable::new(alloc)));
    };
    let mut found = one_side(bindings_of(alloc, scope, first)?);
    for tree in rest {
        let side = bindings_of(alloc, scope, tree)?;
        found = or_side(found, side)?;
    }
    Ok(found)
}

/// What the pattern binds, where the scope says which names are fields and operands.
#[cycle(bindings)]
pub fn bindings_of<'a>(
    alloc: Global,
    scope: &Scope<'_>,
    tree: &'a PatternTree,
) -> Result<Bindings<'a>, NoMemory>
    ensures { IfOk result (IsBindingsOf (declared_in scope.now) tree.now) }
{
    match tree {
        PatternTree::Either(sides) => apart(alloc, scope, sides.as_slice()),
        PatternTree::Chain(parts) => together(alloc, scope, parts.as_slice()),
        PatternTree::Both(parts) => together(alloc, scope, parts.as_slice()),
        PatternTree::Labelled { label, pattern } => {
            let inner = bindings_of(alloc, scope, pattern.get())?;
            labelled(alloc, label.as_slice(), inner)
        }
        PatternTree::Loose(inner) => bindings_of(alloc, scope, inner.get()),
        PatternTree::Group(inner) => bindings_of(alloc, scope, inner.get()),
        PatternTree::Word(word) => word_bindings(alloc, scope, word.as_slice()),
        PatternTree::Empty => Ok(plain(NameTable::new(alloc))),
        PatternTree::Limit { .. } => Ok(plain(NameTable::new(alloc))),
        PatternTree::Apply { .. } => Ok(plain(NameTable::new(alloc))),
    }
}

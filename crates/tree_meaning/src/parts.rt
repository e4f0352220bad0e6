// The parts of a pattern, and what is asked of each.
ghost use Rattle.std.specs.Prelude.{◌≡◌, ◌++◌, List, map, IfOk, OnOk};
ghost use Rattle.std.specs.List.{list_all, flat_map};
ghost use Rattle.tree_meaning.specs.Parts as of;

use sled_base::NoMemory;
use sled_parser::tree::PatternTree;
use std::alloc::Global;

/// Where a pattern stands.
#[derive(Clone, Copy, Debug, PartialEq, Eq)]
pub enum Site {
    /// In the definition of a pattern or of a group.
    Definition,
    /// In an arm.
    Arm,
    /// In the body of a constructor.
    Body,
}

/// The pattern itself and the patterns in it, from left to right, each before those in it.
pub fn parts_of<'a>(alloc: Global, tree: &'a PatternTree) -> Result<Vec<&'a PatternTree>, NoMemory>
    ensures { IfOk result (λ parts. map (λ x. x.now) parts.items ≡ of.parts tree.now) }
{
    let mut parts = Vec::new(alloc);
    parts.push(tree)?;
    push_parts_below(tree, &mut parts)?;
    Ok(parts)
}

// Appends the patterns in the pattern.
#[tactic(auto, using(crate::proofs::PartLaws::parts_laws))]
#[cycle(parts)]
fn push_parts_below<'a>(
    tree: &'a PatternTree,
    parts: &mut Vec<&'a PatternTree>,
) -> Result<(), NoMemory>
    ensures { OnOk result (map (λ x. x.now) parts.new.items ≡ map (λ x. x.now) parts.old.items ++ of.parts_below tree.now) }
{
    match tree {
        PatternTree::Either(trees) | PatternTree::Chain(trees) | PatternTree::Both(trees) => {
            push_all_parts(trees.as_slice(), parts)
        }
        PatternTree::Labelled { pattern, .. } => push_one_part(pattern.get(), parts),
        PatternTree::Loose(pattern) | PatternTree::Group(pattern) => {
            push_one_part(pattern.get(), parts)
        }
        _ => Ok(()),
    }
}

#[cycle(parts)]
fn push_all_parts<'a>(
    trees: &'a [PatternTree],
    parts: &mut Vec<&'a PatternTree>,
) -> Result<(), NoMemory>
    ensures { OnOk result (map (λ x. x.now) parts.new.items ≡ map (λ x. x.now) parts.old.items ++ flat_map of.parts trees.now) }
{
    for tree in trees {
        push_one_part(tree, parts)?;
    }
    Ok(())
}

#[cycle(parts)]
fn push_one_part<'a>(
    tree: &'a PatternTree,
    parts: &mut Vec<&'a PatternTree>,
) -> Result<(), NoMemory>
    ensures { OnOk result (map (λ x. x.now) parts.new.items ≡ map (λ x. x.now) parts.old.items ++ of.parts tree.now) }
{
    parts.push(tree)?;
    push_parts_below(tree, parts)
}

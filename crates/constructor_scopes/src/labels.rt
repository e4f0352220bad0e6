// The labels of a body.
ghost use Rattle.std.specs.Prelude.{◌≡◌, ◌++◌, map, IfOk, OnOk};
ghost use Rattle.std.specs.List.{flat_map};
ghost use Rattle.tree_meaning.specs.Parts.{labels, part_labels, parts as parts_in};

use sled_base::NoMemory;
use sled_parser::tree::PatternTree;
use std::alloc::Global;

/// The labels among the parts, in order.
pub fn labels_in<'a>(alloc: Global, parts: &[&'a PatternTree]) -> Result<Vec<&'a [u8]>, NoMemory>
    ensures { IfOk result (λ found. map (λ x. x.now) found.items ≡ flat_map (λ x. part_labels x.now) parts.now) }
{
    let mut found = Vec::new(alloc);
    push_labels(&mut found, parts)?;
    Ok(found)
}

/// Appends the labels among the parts.
pub fn push_labels<'a>(found: &mut Vec<&'a [u8]>, parts: &[&'a PatternTree]) -> Result<(), NoMemory>
    ensures { OnOk result (map (λ x. x.now) found.new.items ≡ map (λ x. x.now) found.old.items ++ flat_map (λ x. part_labels x.now) parts.now) }
{
    for part in parts {
        push_label(found, *part)?;
    }
    Ok(())
}

fn push_label<'a>(found: &mut Vec<&'a [u8]>, part: &'a PatternTree) -> Result<(), NoMemory>
    ensures { OnOk result (map (λ x. x.now) found.new.items ≡ map (λ x. x.now) found.old.items ++ part_labels part.now) }
{
    if let PatternTree::Labelled { label, .. } = part {
        found.push(label.as_slice())?;
    }
    Ok(())
}

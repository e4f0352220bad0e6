// The labels of a body, and the operands that stand in it.
ghost use Rattle.std.specs.Prelude.{◌≡◌, ◌++◌, IfOk, OnOk};
ghost use Rattle.std.specs.List.{flat_map};
ghost use Rattle.sled_model.specs.Linear.{labels_in};
ghost use Rattle.sled_model.specs.Results.{operands_in};

use sled_base::NoMemory;
use sled_model::Pattern;
use sqlite_items::Items;
use std::alloc::Global;

#[cycle(labels)]
fn push_all_labels(found: &mut Items<u32>, parts: &[Pattern]) -> Result<(), NoMemory>
    ensures { OnOk result (found.new ≡ found.old ++ flat_map labels_in parts.now) }
{
    for part in parts {
        push_labels(found, part)?;
    }
    Ok(())
}

#[tactic(auto, using(crate::proofs::BodyLabels::labels_in_laws))]
#[cycle(labels)]
fn push_labels(found: &mut Items<u32>, pattern: &Pattern) -> Result<(), NoMemory>
    ensures { OnOk result (found.new ≡ found.old ++ labels_in pattern.now) }
{
    match pattern {
        Pattern::Label(label, inner) => {
            found.push(*label)?;
            push_labels(found, inner.get())
        }
        Pattern::Loose(inner) => push_labels(found, inner.get()),
        Pattern::Both(parts) => push_all_labels(found, parts.as_slice()),
        Pattern::Either(parts) => push_all_labels(found, parts.as_slice()),
        Pattern::Chain(parts) => push_all_labels(found, parts.as_slice()),
        Pattern::Token(_)
        | Pattern::Limit { .. }
        | Pattern::Bind(_)
        | Pattern::Operand(_)
        | Pattern::Apply { .. }
        | Pattern::Empty => Ok(()),
    }
}

#[cycle(operands)]
fn push_all_operands(found: &mut Items<u32>, parts: &[Pattern]) -> Result<(), NoMemory>
    ensures { OnOk result (found.new ≡ found.old ++ flat_map operands_in parts.now) }
{
    for part in parts {
        push_operands(found, part)?;
    }
    Ok(())
}

#[tactic(auto, using(sled_model::proofs::AdmittedLaws::operands_in_laws))]
#[cycle(operands)]
fn push_operands(found: &mut Items<u32>, pattern: &Pattern) -> Result<(), NoMemory>
    ensures { OnOk result (found.new ≡ found.old ++ operands_in pattern.now) }
{
    match pattern {
        Pattern::Operand(operand) => {
            found.push(*operand)?;
            Ok(())
        }
        Pattern::Label(_, inner) => push_operands(found, inner.get()),
        Pattern::Loose(inner) => push_operands(found, inner.get()),
        Pattern::Both(parts) => push_all_operands(found, parts.as_slice()),
        Pattern::Either(parts) => push_all_operands(found, parts.as_slice()),
        Pattern::Chain(parts) => push_all_operands(found, parts.as_slice()),
        Pattern::Token(_)
        | Pattern::Limit { .. }
        | Pattern::Bind(_)
        | Pattern::Apply { .. }
        | Pattern::Empty => Ok(()),
    }
}

/// The numbers of the labels of a body, from left to right.
pub(crate) fn labels_of(alloc: Global, body: &Pattern) -> Result<Items<u32>, NoMemory>
    ensures { IfOk result (λ labels. labels ≡ labels_in body.now) }
{
    let mut found = Items::new(alloc);
    push_labels(&mut found, body)?;
    Ok(found)
}

/// The numbers of the operands that stand in a body, from left to right.
pub(crate) fn operands_of(alloc: Global, body: &Pattern) -> Result<Items<u32>, NoMemory>
    ensures { IfOk result (λ operands. operands ≡ operands_in body.now) }
{
    let mut found = Items::new(alloc);
    push_operands(&mut found, body)?;
    Ok(found)
}

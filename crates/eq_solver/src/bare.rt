// The bare fields of a body.
ghost use Rattle.std.specs.Prelude.{◌≡◌, ◌++◌, OnOk, IfOk};
ghost use Rattle.std.specs.List.{flat_map};
ghost use Rattle.sled_model.specs.SolvingOrder.{bare_fields};

use sled_base::NoMemory;
use sled_model::Pattern;
use sqlite_items::Items;
use std::alloc::Global;
use token_bits::FieldId;

#[cycle(bare)]
fn add_fields_of(found: &mut Items<u32>, parts: &[Pattern]) -> Result<(), NoMemory>
    ensures { OnOk result (found.new ≡ found.old ++ flat_map bare_fields parts.now) }
{
    for part in parts {
        add_fields(found, part)?;
    }
    Ok(())
}

#[cycle(bare)]
fn add_fields(found: &mut Items<u32>, pattern: &Pattern) -> Result<(), NoMemory>
    ensures { OnOk result (found.new ≡ found.old ++ bare_fields pattern.now) }
{
    match pattern {
        Pattern::Bind(FieldId(field)) => {
            found.push(*field)?;
            Ok(())
        }
        Pattern::Label(_, inner) => add_fields(found, inner.get()),
        Pattern::Loose(inner) => add_fields(found, inner.get()),
        Pattern::Both(parts) => add_fields_of(found, parts.as_slice()),
        Pattern::Either(parts) => add_fields_of(found, parts.as_slice()),
        Pattern::Chain(parts) => add_fields_of(found, parts.as_slice()),
        Pattern::Token(_)
        | Pattern::Limit { .. }
        | Pattern::Operand(_)
        | Pattern::Apply { .. }
        | Pattern::Empty => Ok(()),
    }
}

/// The numbers of the bare fields of a body, from left to right.
pub fn fields_of(alloc: Global, body: &Pattern) -> Result<Items<u32>, NoMemory>
    ensures { IfOk result (λ fields. fields ≡ bare_fields body.now) }
{
    let mut found = Items::new(alloc);
    add_fields(&mut found, body)?;
    Ok(found)
}

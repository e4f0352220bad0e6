// The labels of a body, each found by hash.
ghost use Rattle.std.specs.Prelude.{◌≡◌, ◌<◌, ◌^◌, true, map, length, IfOk};
ghost use Rattle.std.specs.List.{flat_map};
ghost use Rattle.tree_meaning.specs.Names.{are_distinct};
ghost use Rattle.tree_meaning.specs.NameTables.{table_names};
ghost use Rattle.tree_meaning.specs.Parts.{labels, parts as parts_in};

use constructor_scopes::labels_in;
use sled_base::NoMemory;
use sled_parser::tree::PatternTree;
use std::alloc::Global;
use tree_meaning::NameTable;

/// A table of the labels among the parts, which differ. `NoMemory` also where there are more than 2^32 - 1.
pub fn label_table<'a>(
    alloc: Global,
    body: &PatternTree,
    parts: &[&'a PatternTree],
) -> Result<NameTable<'a>, NoMemory>
    requires parts { map (λ x. x.now) parts.now ≡ parts_in body.now }
    requires distinct { are_distinct (labels body.now) ≡ true }
    ensures labels { IfOk result (λ table. table_names table ≡ labels body.now) }
    ensures few { IfOk result (λ table. length (table_names table) < 2 ^ 32) }
{
    let names = labels_in(alloc, parts)?;
    if names.len() > u32::MAX as usize {
        return Err(NoMemory);
    }
    let table = table_of(alloc, names.as_slice())?;
    Ok(table)
}

fn table_of<'a>(alloc: Global, names: &[&'a [u8]]) -> Result<NameTable<'a>, NoMemory>
    requires { are_distinct (map (λ x. x.now) names.now) ≡ true }
    ensures { IfOk result (λ table. table_names table ≡ map (λ x. x.now) names.now) }
{
    let mut table = NameTable::new(alloc);
    for name in names {
        table.add(*name)?;
    }
    Ok(table)
}

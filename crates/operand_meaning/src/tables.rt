// Tables of names.
ghost use Rattle.std.specs.Prelude.{◌≡◌, ◌++◌, map, option_copied, IfOk, OnOk};
ghost use Rattle.std.specs.Option.{option_to_list};
ghost use Rattle.tree_meaning.specs.Names.{is_among};
ghost use Rattle.tree_meaning.specs.NameTables.{table_names};

use sled_base::NoMemory;
use std::alloc::Global;
use tree_meaning::NameTable;

/// Puts the name behind the others, if there is one.
pub fn push_name<'a>(names: &mut Vec<&'a [u8]>, name: Option<&'a [u8]>) -> Result<(), NoMemory>
    ensures { OnOk result (map (λ x. x.now) names.new.items ≡ map (λ x. x.now) names.old.items ++ option_to_list (option_copied name.entry)) }
{
    let Some(name) = name else {
        return Ok(());
    };
    names.push(name)?;
    Ok(())
}

/// A table that has the same names.
pub fn table_of<'a>(alloc: Global, names: &[&'a [u8]]) -> Result<NameTable<'a>, NoMemory>
    ensures { IfOk result (λ table. is_among (table_names table) ≡ is_among (map (λ x. x.now) names.now)) }
{
    let mut table = NameTable::new(alloc);
    for name in names {
        table.add(*name)?;
    }
    Ok(table)
}

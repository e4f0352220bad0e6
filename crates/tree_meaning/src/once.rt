// Names that are declared once.
ghost use Rattle.std.specs.Prelude.{◌≡◌, ◌&&◌, not, IfOk, map};
ghost use Rattle.std.specs.List.{list_all};
ghost use Rattle.tree_meaning.specs.Names.{is_among, are_new, are_distinct as are_distinct_of};
ghost use Rattle.tree_meaning.specs.NameTables.{table_names};

use crate::names::NameTable;
use sled_base::NoMemory;
use std::alloc::Global;

/// Whether none of the names is in the table, and none stands among them twice.
pub fn are_declared_once(
    alloc: Global,
    declared: &NameTable<'_>,
    names: &[&[u8]],
) -> Result<bool, NoMemory>
    ensures { IfOk result (λ once. once ≡ (are_new (table_names declared.now) (map (λ x. x.now) names.now) && are_distinct_of (map (λ x. x.now) names.now))) }
{
    if !are_undeclared(declared, names) {
        return Ok(false);
    }
    are_distinct(alloc, names)
}

fn are_undeclared(declared: &NameTable<'_>, names: &[&[u8]]) -> bool
    ensures { result ≡ list_all (λ x. not (is_among (table_names declared.now) x.now)) names.now }
{
    names.iter().all(|name| !declared.contains(*name))
}

fn are_distinct(alloc: Global, names: &[&[u8]]) -> Result<bool, NoMemory>
    ensures { IfOk result (λ distinct. distinct ≡ are_distinct_of (map (λ x. x.now) names.now)) }
{
    let mut table = NameTable::new(alloc);
    for name in names {
        let new = table.add(*name)?;
        if !new {
            return Ok(false);
        }
    }
    Ok(true)
}

// A table of names, each found by hash.
ghost use Rattle.std.specs.Prelude.{◌≡◌, map, ◌++◌, ◌∷◌, [], not, length, slice_get, option_copied, IfOk, OnOk, if◌then◌else◌};
ghost use Rattle.std.specs.List.{list_all};
ghost use Rattle.tree_meaning.specs.Names.{is_among, position_of, merged, are_new, are_same_names};

use indexmap::IndexSet;
use sled_base::NoMemory;
use std::alloc::Global;

/// Names that differ, numbered from 0 in the order in which they came.
#[derive(Drop)]
pub struct NameTable<'a> {
    names: IndexSet<&'a [u8]>,
}

impl<'a> NameTable<'a> {
    ghost use Rattle.tree_meaning.specs.NameTables.{table_names};

    pub fn new(alloc: Global) -> NameTable<'a>
        ensures { table_names result ≡ [] }
    {
        NameTable {
            names: IndexSet::new(alloc),
        }
    }

    /// Adds the name, if it is not there yet, and answers whether it was not.
    pub fn add(&mut self, name: &'a [u8]) -> Result<bool, NoMemory>
        ensures new { IfOk result (λ new. new ≡ not (is_among (table_names self.old) name.now)) }
        ensures names { IfOk result (λ new. table_names self.new ≡ (if new then table_names self.old ++ name.now ∷ [] else table_names self.old)) }
    {
        let (_, new) = self.names.insert_full(name)?;
        Ok(new)
    }

    /// The number of the name.
    pub fn find(&self, name: &[u8]) -> Option<usize>
        ensures { result ≡ position_of (table_names self.now) name.now }
    {
        self.names.get_index_of(name)
    }

    /// Whether the name is there.
    pub fn contains(&self, name: &[u8]) -> bool
        ensures { result ≡ is_among (table_names self.now) name.now }
    {
        self.names.contains(name)
    }

    /// How many names there are.
    pub fn len(&self) -> usize
        ensures { result ≡ length (table_names self.now) }
    {
        self.names.as_slice().len()
    }

    /// The name of that number.
    pub fn get(&self, number: usize) -> Option<&'a [u8]>
        ensures { option_copied result ≡ slice_get (table_names self.now) number }
    {
        self.names.get_index(number).copied()
    }

    /// The names, in the order of their numbers.
    pub fn as_slice(&self) -> &[&'a [u8]]
        ensures { map (λ x. x.now) result.now ≡ table_names self.now }
    {
        self.names.as_slice()
    }

    /// Adds each name of the other, and answers whether none of them was there before.
    pub fn merge(&mut self, other: &NameTable<'a>) -> Result<bool, NoMemory>
        ensures new { IfOk result (λ new. new ≡ are_new (table_names self.old) (table_names other.now)) }
        ensures names { OnOk result (table_names self.new ≡ merged (table_names self.old) (table_names other.now)) }
    {
        let mut all_new = true;
        for name in other.names.as_slice() {
            let new = self.add(*name)?;
            all_new = all_new && new;
        }
        Ok(all_new)
    }

    /// Removes each name.
    pub fn clear(&mut self)
        ensures { table_names self.new ≡ [] }
    {
        self.names.clear();
    }

    fn is_within(&self, other: &NameTable<'_>) -> bool
        ensures { result ≡ list_all (is_among (table_names other.now)) (table_names self.now) }
    {
        for name in self.names.as_slice() {
            if !other.contains(*name) {
                return false;
            }
        }
        true
    }

    /// Whether both hold the same names, in whatever order.
    pub fn has_same_names(&self, other: &NameTable<'_>) -> bool
        ensures { result ≡ are_same_names (table_names self.now) (table_names other.now) }
    {
        self.is_within(other) && other.is_within(self)
    }
}

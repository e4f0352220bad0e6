// The names of the constructors, each found by hash.
ghost use Rattle.std.specs.Prelude.{◌≡◌, ◌≢◌, ◌-◌, ◌<◌, ◌^◌, ◌++◌, ◌∷◌, [], All, take, length, position, bytes_eq, OnOk, OnErr};

use indexmap::IndexSet;
use sled_base::NoMemory;
use std::alloc::Global;
use std::marker::Model;

/// Names that differ, numbered from 0 in the order in which they came. Contracts see them as a list.
#[derive(Debug, Drop)]
pub struct ConstructorNames {
    names: IndexSet<Vec<u8>>,
}

impl Model for ConstructorNames {
    ghost use Rattle.std.specs.Prelude.{ℕ, List, map};

    ghost Value = { List (List ℕ) };

    ghost view = { λ t. map (λ name. name.items) t.names.keys };
}

impl ConstructorNames {
    /// No names.
    pub fn new(alloc: Global) -> ConstructorNames
        ensures { result ≡ [] }
    {
        ConstructorNames {
            names: IndexSet::new(alloc),
        }
    }

    /// Adds a copy of the name.
    pub fn add(&mut self, name: &[u8]) -> Result<(), NoMemory>
        requires fresh { All (λ other. other ≢ name.now) self.old }
        ensures added { OnOk result (self.new ≡ self.old ++ name.now ∷ []) }
        ensures err { OnErr result (self.new ≡ self.old) }
    {
        let copied = name.to_vec(*self.names.allocator())?;
        self.names.insert(copied)?;
        Ok(())
    }

    /// Takes the last name away.
    pub fn forget_last(&mut self)
        ensures { self.new ≡ take (length self.old - 1) self.old }
    {
        self.names.truncate(self.names.len().saturating_sub(1));
    }

    /// The number of the name.
    pub fn find(&self, name: &[u8]) -> Option<usize>
        ensures { result ≡ position (bytes_eq name.now) self.now }
    {
        self.names.get_index_of(name)
    }
}

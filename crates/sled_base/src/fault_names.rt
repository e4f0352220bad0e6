// The names whose loads failed.
ghost use Rattle.std.specs.Prelude.{◌≡◌, ◌≢◌, ◌+◌, ◌≤◌, ℕ, List, IfOk};

use crate::NoMemory;
use std::alloc::Global;

/// The names of the loads that failed, one for each such load. A shelf prepares the copy of a name and the room for it before it tries the
/// load, so that a fault can always be counted.
#[derive(Drop)]
pub struct FaultNames {
    names: Vec<Vec<u8>>,
}

impl FaultNames {
    ghost use Rattle.sled_base.specs.Names.{fault_count, HasRoom};

    /// No name: no load has failed. Takes no memory.
    pub fn new(alloc: Global) -> FaultNames
        ensures { (name : List ℕ) → fault_count result name ≡ 0 }
    {
        FaultNames {
            names: Vec::new(alloc),
        }
    }

    /// How often a load of that name failed.
    pub fn count(&self, name: &str) -> u64
        ensures { result ≡ fault_count self.now name.now }
    {
        self.names
            .iter()
            .filter(|v| v.as_slice() == name.as_bytes())
            .count() as u64
    }

    /// A copy of the name, with room made to keep it. `NoMemory` where there is no memory for either. No count changes.
    pub fn prepare(&mut self, alloc: Global, name: &str) -> Result<Vec<u8>, NoMemory>
        ensures copy { IfOk result (λ v. v.items ≡ name.now) }
        ensures room { IfOk result (λ _. HasRoom self.new) }
        ensures same { (any : List ℕ) → fault_count self.new any ≡ fault_count self.old any }
    {
        let copy = name.as_bytes().to_vec(alloc)?;
        self.names.reserve(1)?;
        Ok(copy)
    }

    /// Counts one more failure of that name, for which there has to be room. All other counts stay. Takes no memory.
    pub fn keep(&mut self, name: Vec<u8>)
        requires { HasRoom self.old }
        ensures counted { fault_count self.new name.items ≡ fault_count self.old name.items + 1 }
        ensures later { (any : List ℕ) → fault_count self.old any ≤ fault_count self.new any }
        ensures others { (other : List ℕ) → other ≢ name.items → fault_count self.new other ≡ fault_count self.old other }
    {
        match self.names.push(name) {
            Ok(()) => (),
            Err(_) => unreachable!(),
        }
    }
}

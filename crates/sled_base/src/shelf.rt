// A shelf in memory.
ghost use Rattle.std.specs.Prelude.{◌≡◌, ◌≢◌, ◌+◌, ◌<◌, ◌≤◌, ◌++◌, ℕ, List, [], true, None, Some, length, take, IfOk, OnOk, OnErr, IsErr, IsErrOf, IfErr, option_map};
ghost use Rattle.std.specs.Option.{ForSome};
ghost use Rattle.sled_base.specs.Causes.{Rose};
ghost use Rattle.sled_base.specs.Memory.{counted};
ghost use Rattle.sled_base.specs.Shelf.{entry_text};
ghost use Rattle.sled_base.specs.Names.{fault_count};

use crate::{FaultNames, NoMemory, Shelf, ShelfFault};
use std::alloc::Global;

#[derive(Drop)]
pub(crate) struct Entry {
    name: Vec<u8>,
    text: Vec<u8>,
}

/// Texts in memory, and the numbers of the loads that fail, counted from 1. It tells which texts it has, and so which names it lacks.
#[derive(Drop)]
pub struct MemShelf {
    alloc: Global,
    entries: Vec<Entry>,
    failing: Vec<u64>,
    calls: u64,
    failed: FaultNames,
}

impl MemShelf {
    ghost use Rattle.sled_base.specs.Shelf.{shelf_text, shelf_failing, shelf_calls, shelf_faults};

    /// An empty shelf, on which the loads of the numbers `failing` fail. `NoMemory` where there is no memory for the copy of these.
    pub fn new(alloc: Global, failing: &[u64]) -> Result<MemShelf, NoMemory>
        ensures texts { IfOk result (λ s. (name : List ℕ) → shelf_text s name ≡ None) }
        ensures faults { IfOk result (λ s. (name : List ℕ) → shelf_faults s name ≡ 0) }
        ensures failing { IfOk result (λ s. shelf_failing s ≡ failing.now) }
        ensures calls { IfOk result (λ s. shelf_calls s ≡ 0) }
    {
        Ok(MemShelf {
            alloc,
            entries: Vec::new(alloc),
            failing: failing.to_vec(alloc)?,
            calls: 0,
            failed: FaultNames::new(alloc),
        })
    }

    /// Puts a text under a name, both copied. A name that is there already gets the new text. `NoMemory` where there is no memory for
    /// the copies; then each name has the text that it had.
    pub fn add(&mut self, name: &[u8], text: &[u8]) -> Result<(), NoMemory>
        ensures added { OnOk result (shelf_text self.new name.now ≡ Some text.now) }
        ensures others { OnOk result ((other : List ℕ) → other ≢ name.now → shelf_text self.new other ≡ shelf_text self.old other) }
        ensures refused { OnErr result ((any : List ℕ) → shelf_text self.new any ≡ shelf_text self.old any) }
        ensures faults { (any : List ℕ) → shelf_faults self.new any ≡ shelf_faults self.old any }
        ensures failing { shelf_failing self.new ≡ shelf_failing self.old }
        ensures calls { shelf_calls self.new ≡ shelf_calls self.old }
    {
        let entry = Entry {
            name: name.to_vec(self.alloc)?,
            text: text.to_vec(self.alloc)?,
        };
        self.entries.push(entry)?;
        Ok(())
    }
}

impl Shelf for MemShelf {
    ghost use Rattle.sled_base.specs.Shelf.{shelf_text, shelf_lacks, shelf_failing, shelf_calls, shelf_faults, LoadFails};

    ghost text = { shelf_text };

    ghost lacks = { shelf_lacks };

    ghost faults = { shelf_faults };

    /// The first `limit + 1` bytes of the text, or all of it where it has no more. `Failed` exactly where the number of this load is on
    /// the list or the name is absent, and the count for the name goes up by one. `NoMemory` may come in the place of either answer, where
    /// there is no memory for the bytes or for the name of the failed load; it is no fault.
    fn load(&mut self, alloc: Global, name: &str, limit: u32) -> Result<Vec<u8>, ShelfFault>
        ensures bytes { IfOk result (λ v. ForSome (shelf_text self.old name.now) (λ t. v.items ≡ take (limit + 1) t)) }
        ensures length { IfOk result (λ v. length v.items ≤ limit + 1) }
        ensures lacking { shelf_lacks self.old name.now ≡ true → IsErr result }
        ensures failed { IsErrOf result ShelfFault.Failed → Rose (shelf_faults self.old name.now) (shelf_faults self.new name.now) }
        ensures later { (any : List ℕ) → shelf_faults self.old any ≤ shelf_faults self.new any }
        ensures others { (other : List ℕ) → other ≢ name.now → shelf_faults self.new other ≡ shelf_faults self.old other }
        ensures texts { (any : List ℕ) → shelf_text self.new any ≡ shelf_text self.old any }
        ensures absent { (any : List ℕ) → shelf_lacks self.new any ≡ shelf_lacks self.old any }
        ensures fails { IsErrOf result ShelfFault.Failed → LoadFails self.old name.now }
        ensures loads { IfOk result (λ _. LoadFails self.old name.now → ⊥) }
        ensures counted { IsErrOf result ShelfFault.Failed → shelf_faults self.new name.now ≡ shelf_faults self.old name.now + 1 }
        ensures kept { IfOk result (λ _. (any : List ℕ) → shelf_faults self.new any ≡ shelf_faults self.old any) }
        ensures no_memory { IsErrOf result ShelfFault.NoMemory → (any : List ℕ) → shelf_faults self.new any ≡ shelf_faults self.old any }
        ensures failing { shelf_failing self.new ≡ shelf_failing self.old }
        ensures calls { shelf_calls self.new ≡ counted (shelf_calls self.old) }
    {
        self.calls = self.calls.saturating_add(1);
        if self.failing.contains(&self.calls) {
            return Err(fail(self.alloc, &mut self.failed, name));
        }
        match find_text(&self.entries, name.as_bytes()) {
            Some(text) => front(alloc, text, limit),
            None => Err(fail(self.alloc, &mut self.failed, name)),
        }
    }

    /// How often a load of that name failed.
    fn faults(&self, name: &str) -> u64 {
        self.failed.count(name)
    }
}

// The text that was added last under that name.
fn find_text<'a>(entries: &'a [Entry], name: &[u8]) -> Option<&'a [u8]>
    ensures { option_map (λ x. x.now) result ≡ entry_text entries.now name.now }
{
    entries
        .iter()
        .rev()
        .find(|e| e.name.as_slice() == name)
        .map(|e| e.text.as_slice())
}

// The first `limit + 1` bytes.
fn front(alloc: Global, text: &[u8], limit: u32) -> Result<Vec<u8>, ShelfFault>
    ensures bytes { IfOk result (λ v. v.items ≡ take (limit + 1) text.now) }
    ensures memory { IfErr result (λ e. e ≡ ShelfFault.NoMemory) }
{
    let count = text.len().min(limit as usize + 1);
    match text[..count].to_vec(alloc) {
        Ok(bytes) => Ok(bytes),
        Err(_) => Err(ShelfFault::NoMemory),
    }
}

// Keeps the name of a load that failed, unless there is no memory.
fn fail(alloc: Global, failed: &mut FaultNames, name: &str) -> ShelfFault
    ensures failed { result ≡ ShelfFault.Failed → Rose (fault_count failed.old name.now) (fault_count failed.new name.now) }
    ensures counted { result ≡ ShelfFault.Failed → fault_count failed.new name.now ≡ fault_count failed.old name.now + 1 }
    ensures no_memory { result ≡ ShelfFault.NoMemory → (any : List ℕ) → fault_count failed.new any ≡ fault_count failed.old any }
    ensures later { (any : List ℕ) → fault_count failed.old any ≤ fault_count failed.new any }
    ensures others { (other : List ℕ) → other ≢ name.now → fault_count failed.new other ≡ fault_count failed.old other }
{
    let Ok(copy) = failed.prepare(alloc, name) else {
        return ShelfFault::NoMemory;
    };
    failed.keep(copy);
    ShelfFault::Failed
}

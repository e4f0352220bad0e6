// The files of the current folder as a shelf.
ghost use Rattle.std.specs.Prelude.{◌≡◌, ◌≢◌, ◌+◌, ◌≤◌, ℕ, List, true, length, take, IfOk, IsErr, IsErrOf};
ghost use Rattle.std.specs.Option.{ForSome};
ghost use Rattle.sled_base.specs.Causes.{Rose};

use crate::Reading;
use sled_base::{FaultNames, ReadFault, Shelf, ShelfFault, read_up_to};
use std::alloc::Global;
use std::fs;
use std::rt::Files;

/// The files of the current folder, each under its path from there, and the names whose loads failed. It tells no text and lacks no
/// name: what a file holds, and whether there is one, is not claimed.
#[derive(Drop)]
pub struct Folder<R> {
    rt: R,
    failed: FaultNames,
}

impl<R: Files> Folder<R> {
    ghost use Rattle.toolkit_edge.specs.Folder.{folder_faults};

    /// The current folder as a shelf, with no fault so far. Takes no memory.
    pub fn new(rt: R, alloc: Global) -> Folder<R>
        ensures { (name : List ℕ) → folder_faults result name ≡ 0 }
    {
        Folder {
            rt,
            failed: FaultNames::new(alloc),
        }
    }
}

impl<R: Files> Shelf for Folder<R> {
    ghost use Rattle.toolkit_edge.specs.Folder.{folder_text, folder_lacks, folder_faults};

    ghost text = { folder_text };

    ghost lacks = { folder_lacks };

    ghost faults = { folder_faults };

    /// The first `limit + 1` bytes of the file, or all of them where it has no more. `Failed` where the file cannot be opened or a read
    /// fails, and the count for the name goes up by one; the copy of the name, and the room to keep it, are taken before the file is
    /// opened. `NoMemory` where there is no memory for these or for the bytes; no count changes.
    fn load(&mut self, alloc: Global, name: &str, limit: u32) -> Result<Vec<u8>, ShelfFault>
        ensures bytes { IfOk result (λ v. ForSome (folder_text self.old name.now) (λ t. v.items ≡ take (limit + 1) t)) }
        ensures length { IfOk result (λ v. length v.items ≤ limit + 1) }
        ensures lacking { folder_lacks self.old name.now ≡ true → IsErr result }
        ensures failed { IsErrOf result ShelfFault.Failed → Rose (folder_faults self.old name.now) (folder_faults self.new name.now) }
        ensures later { (any : List ℕ) → folder_faults self.old any ≤ folder_faults self.new any }
        ensures others { (other : List ℕ) → other ≢ name.now → folder_faults self.new other ≡ folder_faults self.old other }
        ensures texts { (any : List ℕ) → folder_text self.new any ≡ folder_text self.old any }
        ensures absent { (any : List ℕ) → folder_lacks self.new any ≡ folder_lacks self.old any }
        ensures counted { IsErrOf result ShelfFault.Failed → folder_faults self.new name.now ≡ folder_faults self.old name.now + 1 }
        ensures kept { IfOk result (λ _. (any : List ℕ) → folder_faults self.new any ≡ folder_faults self.old any) }
        ensures no_memory { IsErrOf result ShelfFault.NoMemory → (any : List ℕ) → folder_faults self.new any ≡ folder_faults self.old any }
    {
        let Ok(copy) = self.failed.prepare(alloc, name) else {
            return Err(ShelfFault::NoMemory);
        };
        match read_file(&self.rt, alloc, name, limit) {
            Ok(text) => Ok(text),
            Err(ReadFault::NoMemory) => Err(ShelfFault::NoMemory),
            Err(ReadFault::Unread) => {
                self.failed.keep(copy);
                Err(ShelfFault::Failed)
            }
        }
    }

    /// How often a load of that name failed.
    fn faults(&self, name: &str) -> u64 {
        self.failed.count(name)
    }
}

// The first `limit + 1` bytes of a file, or all of them where it has no more.
fn read_file<R: Files>(rt: &R, alloc: Global, name: &str, limit: u32) -> Result<Vec<u8>, ReadFault>
    ensures { IfOk result (λ v. length v.items ≤ limit + 1) }
{
    let Ok(file) = fs::open(rt, name) else {
        return Err(ReadFault::Unread);
    };
    read_up_to(alloc, &mut Reading::new(file), limit as usize + 1)
}

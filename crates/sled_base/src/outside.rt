// What the toolkit asks of the outside. Contents are told or not; a count of faults never falls.
ghost use Rattle.std.specs.Prelude.{◌≡◌, ◌≢◌, ◌+◌, ◌<◌, ◌≤◌, ℕ, Bool, true, List, Option, length, take, IfOk, IsErr, IsErrOf};
ghost use Rattle.std.specs.Option.{ForSome};
ghost use Rattle.std.specs.Io.{ReadsAtMost};
ghost use Rattle.std.specs.Io.KnownBytes.{ReadConsumes, WriteAppends};
ghost use Rattle.sled_base.specs.Causes.{Rose, HasCause};

use crate::{Failed, ShelfFault};
use std::alloc::Global;

/// Named texts. The shelf tells its texts and the names that it lacks or not, as its type says, and has a count of faults for each name.
pub trait Shelf {
    /// The text of a name, where the shelf tells it.
    ghost text: { Self → List ℕ → Option (List ℕ) };

    /// Whether the shelf tells that it has no text of that name.
    ghost lacks: { Self → List ℕ → Bool };

    /// How often a load of that name failed.
    ghost faults: { Self → List ℕ → ℕ };

    /// The first `limit + 1` bytes of the text of a name, or all of it where it has no more. `Failed` where the text cannot be read,
    /// only where the count for the name rose. `NoMemory` where there is no memory for the bytes. A name that the shelf lacks is not
    /// loaded. The counts of all other names stay, no count falls, and no text changes.
    fn load(&mut self, alloc: Global, name: &str, limit: u32) -> Result<Vec<u8>, ShelfFault>
        ensures bytes { IfOk result (λ v. ForSome (text self.old name.now) (λ t. v.items ≡ take (limit + 1) t)) }
        ensures length { IfOk result (λ v. length v.items ≤ limit + 1) }
        ensures lacking { lacks self.old name.now ≡ true → IsErr result }
        ensures failed { IsErrOf result ShelfFault.Failed → Rose (faults self.old name.now) (faults self.new name.now) }
        ensures later { (any : List ℕ) → faults self.old any ≤ faults self.new any }
        ensures others { (other : List ℕ) → other ≢ name.now → faults self.new other ≡ faults self.old other }
        ensures texts { (any : List ℕ) → text self.new any ≡ text self.old any }
        ensures absent { (any : List ℕ) → lacks self.new any ≡ lacks self.old any };

    /// How often a load of that name failed, at most 2^64 - 1.
    fn faults(&self, name: &str) -> u64
        ensures { result ≡ faults self.now name.now };
}

/// Bytes that come in. The source tells those that are left or not, as its type says, and has a count of faults.
pub trait Source {
    /// The bytes that are left, where the source tells them.
    ghost left: { Self → Option (List ℕ) };

    /// How often a read failed.
    ghost faults: { Self → ℕ };

    /// Moves the next bytes to the front of `buf`, which is not empty, and answers how many: 0 exactly where none is left.
    /// `Failed` comes only where the count rose, and takes no byte.
    fn read(&mut self, buf: &mut [u8]) -> Result<usize, Failed>
        requires { 0 < length buf.old }
        ensures bound { ReadsAtMost result buf.new }
        ensures bytes { ReadConsumes (left self.old) (left self.new) result buf.new }
        ensures cause { HasCause (faults self.old) (faults self.new) result };

    /// How often a read failed, at most 2^64 - 1.
    fn faults(&self) -> u64
        ensures { result ≡ faults self.now };
}

/// Bytes that go out. The sink tells those that it has taken or not, as its type says, and has a count of faults.
pub trait Sink {
    /// The bytes that it has taken, where the sink tells them.
    ghost contents: { Self → Option (List ℕ) };

    /// How often a write failed.
    ghost faults: { Self → ℕ };

    /// Appends the first bytes of `piece`, which is not empty, and answers how many: at least one. `Failed` comes only where
    /// the count rose, and appends nothing.
    fn write(&mut self, piece: &[u8]) -> Result<usize, Failed>
        requires { 0 < length piece.now }
        ensures count { IfOk result (λ n. (0 < n) × (n ≤ length piece.now)) }
        ensures bytes { WriteAppends (contents self.old) (contents self.new) result piece.now }
        ensures cause { HasCause (faults self.old) (faults self.new) result };

    /// How often a write failed, at most 2^64 - 1.
    fn faults(&self) -> u64
        ensures { result ≡ faults self.now };
}

// The bytes of a source, as many as are wanted.
ghost use Rattle.std.specs.Prelude.{◌≡◌, ◌≤◌, ◌<◌, ℕ, List, take, length, IfOk, OnErr, IsErrOf};
ghost use Rattle.std.specs.Option.{ForSome};
ghost use Rattle.std.specs.Io.KnownBytes.{Consumes, IsAtEnd};
ghost use Rattle.sled_base.specs.Causes.{Rose};

use crate::Source;
use std::alloc::Global;
use thiserror::Error;

/// Why the bytes of a source could not be had.
#[derive(Clone, Copy, Debug, PartialEq, Eq, Error)]
pub enum ReadFault {
    /// The source failed.
    #[error("the source cannot be read")]
    Unread,
    /// There was no memory for the bytes.
    #[error("out of memory")]
    NoMemory,
}

/// The bytes that the source has left, up to `most`: it reads until the end, or until it holds so many. With fewer it was told the
/// end. `Unread` where a read failed, only where the source's count rose; `NoMemory` where there is no memory for the bytes. After
/// either, the source has given at most `most` bytes, and these are lost.
pub fn read_up_to<I: Source>(
    alloc: Global,
    source: &mut I,
    most: usize,
) -> Result<Vec<u8>, ReadFault>
    ensures bytes { IfOk result (λ v. ForSome (I.left source.old) (λ b. v.items ≡ take most b)) }
    ensures length { IfOk result (λ v. length v.items ≤ most) }
    ensures taken { IfOk result (λ v. Consumes (I.left source.old) (I.left source.new) v.items) }
    ensures lost { OnErr result ((given : List ℕ) × (length given ≤ most) × Consumes (I.left source.old) (I.left source.new) given) }
    ensures end { IfOk result (λ v. length v.items < most → IsAtEnd (I.left source.new)) }
    ensures unread { IsErrOf result ReadFault.Unread → Rose (I.faults source.old) (I.faults source.new) }
    ensures later { I.faults source.old ≤ I.faults source.new }
{
    let mut held = Vec::new(alloc);
    let mut piece = [0u8; 4096];
    while held.len() < most {
        let room = (most - held.len()).min(4096);
        let Ok(count) = source.read(&mut piece[..room]) else {
            return Err(ReadFault::Unread);
        };
        if count == 0 {
            return Ok(held);
        }
        let Ok(()) = held.extend_from_slice(&piece[..count]) else {
            return Err(ReadFault::NoMemory);
        };
    }
    Ok(held)
}

// A whole text, and all of the bytes.
ghost use Rattle.std.specs.Prelude.{◌≡◌, ◌≢◌, ◌+◌, ◌<◌, ◌≤◌, ℕ, List, true, false, length, take, IfOk, IsErr, IsErrOf, OnOk, OnErr};
ghost use Rattle.std.specs.Option.{ForSome};
ghost use Rattle.std.specs.Io.KnownBytes.{Appends};
ghost use Rattle.sled_base.specs.Causes.{Rose, HasCause};
ghost use Rattle.sled_base.specs.Contents.{AppendsProperPrefix};

use crate::{Failed, MAX_TEXT, Shelf, ShelfFault, Sink, TextFault};
use std::alloc::Global;

/// The whole text of a name, of at most `MAX_TEXT` bytes. `TooLong` exactly where it has more. `Unread` where the load failed, which
/// it does only where the shelf's count for the name rose; an absent name is never `TooLong`. `NoMemory` where there is no memory for the
/// text. The counts of all other names stay, and no text changes.
pub fn load_text<H: Shelf>(alloc: Global, shelf: &mut H, name: &str) -> Result<Vec<u8>, TextFault>
    ensures whole { IfOk result (λ v. ForSome (H.text shelf.old name.now) (λ t. v.items ≡ t)) }
    ensures length { IfOk result (λ v. length v.items ≤ MAX_TEXT) }
    ensures too_long { IsErrOf result TextFault.TooLong → ForSome (H.text shelf.old name.now) (λ t. MAX_TEXT < length t) }
    ensures lacking { H.lacks shelf.old name.now ≡ true → IsErr result }
    ensures present { IsErrOf result TextFault.TooLong → H.lacks shelf.old name.now ≡ false }
    ensures unread { IsErrOf result TextFault.Unread → Rose (H.faults shelf.old name.now) (H.faults shelf.new name.now) }
    ensures later { (any : List ℕ) → H.faults shelf.old any ≤ H.faults shelf.new any }
    ensures others { (other : List ℕ) → other ≢ name.now → H.faults shelf.new other ≡ H.faults shelf.old other }
    ensures texts { (any : List ℕ) → H.text shelf.new any ≡ H.text shelf.old any }
    ensures absent { (any : List ℕ) → H.lacks shelf.new any ≡ H.lacks shelf.old any }
{
    match shelf.load(alloc, name, MAX_TEXT) {
        Ok(text) if text.len() > MAX_TEXT as usize => Err(TextFault::TooLong),
        Ok(text) => Ok(text),
        Err(ShelfFault::Failed) => Err(TextFault::Unread),
        Err(ShelfFault::NoMemory) => Err(TextFault::NoMemory),
    }
}

/// Appends all bytes, in as many writes as it takes. After `Failed`, which comes only where the sink's count rose, a proper prefix was
/// appended. Empty bytes are Ok without a write. Takes no memory.
pub fn write_all<O: Sink>(sink: &mut O, bytes: &[u8]) -> Result<(), Failed>
    ensures ok { OnOk result (Appends (O.contents sink.old) (O.contents sink.new) bytes.now) }
    ensures failed { OnErr result (AppendsProperPrefix (O.contents sink.old) (O.contents sink.new) bytes.now) }
    ensures cause { HasCause (O.faults sink.old) (O.faults sink.new) result }
    ensures nothing { length bytes.now ≡ 0 → sink.new ≡ sink.old }
{
    let mut at = 0;
    while at < bytes.len() {
        at += sink.write(&bytes[at..])?;
    }
    Ok(())
}

//! What every crate of the toolkit stands on: the outside as the toolkit sees it, its forms in memory, places in a text, and limits.
//!
//! The outside is a shelf of named texts (`Shelf`), a source of bytes (`Source`) and a sink of bytes (`Sink`). Each object tells its
//! contents or not, as its type says: where it does, a call says exactly what it did to them. Each has a count of its faults that never
//! falls, the shelf one for each name, and a call answers a fault only where that count rose, or stands at 2^64 - 1. So who hands an
//! object in can always tell whether a fault was its own.
//!
//! `MemShelf`, `MemSource` and `MemSink` are the forms in memory. They tell their contents, and fail exactly at the calls that their
//! maker names. `load_text`, `read_up_to` and `write_all` go through any of the three, and a shelf of one's own keeps the names of its
//! failed loads in `FaultNames`. That memory is wanting is an answer of its own, `NoMemory`, and no fault.
//!
//! A caller, which is proved as it stands:
//!
//! ```
//! /// Writes a text of the shelf to a sink, and says whether all of it was written.
//! pub fn print_text<H: Shelf, O: Sink>(alloc: Global, shelf: &mut H, name: &str, out: &mut O) -> Result<bool, TextFault>
//!     ensures printed { result ≡ Ok true → ForSome (H.text shelf.old name.now) (λ t. Appends (O.contents out.old) (O.contents out.new) t) }
//!     ensures unread { IsErrOf result TextFault.Unread → Rose (H.faults shelf.old name.now) (H.faults shelf.new name.now) }
//! {
//!     let text = load_text(alloc, shelf, name)?;
//!     Ok(write_all(out, &text).is_ok())
//! }
//! ```
#![tactic(auto)]

mod fault_names;
mod faults;
mod limits;
mod outside;
mod reads;
mod shelf;
mod sink;
mod source;
mod span;
#[cfg(test)]
mod tests;
mod texts;

pub use fault_names::FaultNames;
pub use faults::{Failed, NoMemory, ShelfFault, TextFault};
pub use limits::{
    MAX_COEFFICIENT, MAX_DRILL, MAX_EQUATIONS, MAX_LINE, MAX_LINES, MAX_LOCATION, MAX_MATCH,
    MAX_NESTING, MAX_NUMBER, MAX_OPERANDS, MAX_SIZE, MAX_STATEMENT_WEIGHT, MAX_TERMS,
    MAX_TESTED_BITS, MAX_TEXT, MAX_WEIGHT,
};
pub use outside::{Shelf, Sink, Source};
pub use reads::{ReadFault, read_up_to};
pub use shelf::MemShelf;
pub use sink::MemSink;
pub use source::MemSource;
pub use span::Span;
pub use texts::{load_text, write_all};

// Texts on a shelf in memory.
use sled_base::{MemShelf, NoMemory};
use std::alloc::Global;

/// The name under which the description lies on the shelf.
pub(crate) const SPEC: &str = "s";

/// The name under which the statement lies there.
pub(crate) const MATCH: &str = "m";

/// A shelf with the texts of a description and of a statement.
pub(crate) fn shelf(alloc: Global, spec: &[u8], matching: &[u8]) -> Result<MemShelf, NoMemory> {
    let mut shelf = MemShelf::new(alloc, &[])?;
    shelf.add(SPEC.as_bytes(), spec)?;
    shelf.add(MATCH.as_bytes(), matching)?;
    Ok(shelf)
}

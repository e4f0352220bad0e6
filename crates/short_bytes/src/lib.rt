//! Lists of at most 32 bytes, which take no memory.
#![tactic(auto)]

mod short_bytes;
#[cfg(test)]
mod tests;

pub use short_bytes::ShortBytes;

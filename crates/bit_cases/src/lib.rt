//! Conditions on the bits of the first bytes of a window, of which there are at most 32.
#![tactic(auto)]

mod byte_case;
#[cfg(test)]
mod tests;

pub use byte_case::ByteCase;

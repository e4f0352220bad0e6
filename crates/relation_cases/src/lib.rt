//! The values of a field that have a relation to a limit, as conditions on the bits of a window's bytes.
#![tactic(auto)]

mod blocks;
mod cases;
mod masks;
#[cfg(test)]
mod tests;

pub use cases::{CaseList, limit_cases};

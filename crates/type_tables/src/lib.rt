//! What the types of a description come to, kept beside it: for each type the weight, the size and the shapes of its constructors, and
//! whether an operand is of it. So a constructor is measured in the time that its operands and its body take.
#![tactic(auto)]

mod measures;
mod table;
#[cfg(test)]
mod tests;
mod types;

pub use measures::Measures;
pub use table::TypeTable;
pub use types::TypeEntry;

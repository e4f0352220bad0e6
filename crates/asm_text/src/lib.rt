//! Assembly text: an instance as its constructor's name with its operands in parentheses, and an arm's action with the values of its
//! names filled in.
//!
//! Both calls append to a text that the caller holds. The numbers of an instance are written in decimal, so what `write_instance`
//! appends reads `addiu(29, 29, -32)` or `lw(2, at(8, -4))`.
#![tactic(auto)]

mod actions;
mod bytes;
mod instances;
#[cfg(test)]
mod tests;

pub use actions::write_action;
pub use instances::write_instance;

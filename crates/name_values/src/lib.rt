//! The values of an arm's names in a result at a place: numbers of fields, addresses of labels, and operands of the instances that
//! applications mean.
#![tactic(auto)]

mod arguments;
mod entries;
mod laws;
mod names;
#[cfg(test)]
mod tests;
mod whole;

pub use laws::{arm_results_mean, one_value_each};
pub use names::values;

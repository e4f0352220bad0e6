//! The constructors that a declaration makes, and their addition to a description.
#![tactic(auto)]

mod adding;
mod making;
mod naming;

pub use adding::add_constructors;
pub use making::constructors_of;

#[cfg(test)]
mod tests;

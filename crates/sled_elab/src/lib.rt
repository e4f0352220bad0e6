//! What declarations stand for: the model of a description, or the first declaration that does not meet a condition of the language.
#![tactic(auto)]

mod class;
mod constructor;
mod declarations;
mod definition;
mod description;
mod fault;
mod first;
mod form;
#[cfg(test)]
mod tests;

pub use declarations::{describe, elaborate, scope_of};
pub use description::Description;
pub use fault::ElabFault;

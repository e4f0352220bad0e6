//! The shapes of a pattern, and what the language asks of them: that the sides of a conjunction agree, that what stands before a
//! `;` is not loose, and that the alternatives of a disjunction have one shape.
#![tactic(auto)]

mod compare;
mod form;
mod join;
mod measure;
mod pattern_form;
#[cfg(test)]
mod tests;

pub use form::Form;
pub use join::{add_shapes, copy_shapes};
pub use measure::{is_closed, lengths_within};
pub use pattern_form::form_of;

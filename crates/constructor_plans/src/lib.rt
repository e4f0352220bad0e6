//! Whether the equations of the constructors that a declaration makes can be solved.
//!
//! `unmet_plans` says of some constructors which of conditions 12 and 13 they do not all meet. The law `linear_of` (`proofs/LinearOf.antt`)
//! says that each constructor of a declaration is one that may be asked.
#![tactic(auto)]

mod plans;

pub use plans::unmet_plans;

#[cfg(test)]
mod tests;

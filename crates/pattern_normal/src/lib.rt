//! Patterns as lists of cases: each a condition on the bits of a window, and what a window that meets it binds.
#![tactic(auto)]

mod admitted;
mod alternative;
mod barren;
mod caps;
mod case;
mod context;
mod expand;
mod leaves;
mod lengths;
mod limits;
mod made;
mod measures;
mod sizes;
mod skeleton;
#[cfg(test)]
mod tests;
mod weights;

pub use case::{Case, CaseList, cases_of};
pub use lengths::longest;
pub use measures::{body_size, body_weight, size, size_over, weight, weight_over};
pub use skeleton::{Skeleton, Spot, SpotList};

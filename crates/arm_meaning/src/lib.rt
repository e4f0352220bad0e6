//! What the arms of a statement mean: which applications of constructors the language admits, what they stand for and what names they
//! bind, what is true of the pattern of an accepted arm, and the arms that `match all` stands for.
#![tactic(auto)]

mod all;
mod applications;
mod bindings;
mod laws;
mod patterns;

pub use all::all_arms;
pub use applications::{application, application_fits};
pub use bindings::{Bindings, arm_bindings};
pub use laws::{all_laws, pattern_laws};
pub use patterns::{are_known_in_arm, arm_pattern};

//! What the pattern trees of descriptions and statements mean: the names in them, the numbers, what they bind, and the patterns that they
//! stand for.
#![tactic(auto)]

mod bindings;
mod checks;
mod choices;
mod names;
mod once;
mod parts;
mod patterns;
mod scope;
mod values;

pub use bindings::{Bindings, bindings_of};
pub use checks::{apply_nothing, are_known, generate_nothing, labels_are_new, numbers_fit};
pub use choices::choice_count;
pub use names::NameTable;
pub use once::are_declared_once;
pub use parts::{Site, parts_of};
pub use patterns::patterns_of;
pub use scope::{Meaning, MeaningList, Scope};
pub use values::{all_fit, is_one_number, number_count, value_count};

#[cfg(test)]
mod bindings_tests;
#[cfg(test)]
mod patterns_tests;

//! What the operands and the equations of a constructor's tree mean: what each operand is, where names have to stand, and the equations
//! that the trees stand for.
#![tactic(auto)]

mod equations;
mod kinds;
mod known;
mod limits;
mod operands;
mod standing;
mod tables;
mod terms;

pub use equations::equations_of;
pub use kinds::operand_kinds;
pub use known::are_equations_known;
pub use limits::are_within_limits;
pub use operands::{explicit_names, operand_name, operand_names};
pub use standing::names_stand;

#[cfg(test)]
mod tests;

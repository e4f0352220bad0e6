//! The form, the weight, the size and the length of a pattern of an arm, which may apply constructors of a whole description.
//!
//! Bodies are measured over operands of which the measures are given (crates `pattern_shapes` and `pattern_normal`). So is an
//! application: a body over what its arguments and the types of its operands come to. And so is any pattern that has parts: it is
//! measured as the same pattern with an operand in place of each part.
#![tactic(auto)]

mod applied;
mod caps;
mod lengths;
mod measures;
mod parts;
mod table;
mod types;
mod wholes;

pub use measures::{ArmMeasures, arm_measures};
pub use table::ApplicationTable;

//! The names of a constructor's declaration: which constructors it makes, whether its names are declared once, and what names stand for
//! in its body.
#![tactic(auto)]

mod bodies;
mod labels;
mod members;
mod names;
mod operands;

pub use bodies::{bodies_of, first_of};
pub use labels::labels_in;
pub use members::{Makings, Member, made_names, makings_of};
pub use names::{have_local_names, have_new_names};
pub use operands::enter_operands;

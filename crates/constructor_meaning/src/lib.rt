//! What the declaration of a constructor has to meet: its names, its body, its operands and its equations.
#![tactic(auto)]

mod draft;
mod fault;
mod forming;
mod labels;
mod naming;
mod reading;
mod results;
mod standing;
mod tree;

pub use draft::{Draft, draft_of};
pub use fault::ReadFault;
pub use forming::unmet_measures;
pub use reading::{BodyReading, Reading};
pub use tree::ConstructorTree;

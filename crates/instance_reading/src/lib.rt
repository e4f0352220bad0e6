//! The instance that a result of a constructor's body means, at the location of its match.
//!
//! `plans_of` solves the equations of a description's constructors once. `instance_of` then reads the instance out of the window by
//! the spots that a result of a body bound: each operand that is a number by the constructor's plan, each that is an instance out of the choice for it.
//! The functions of this file do nothing: their contracts are laws.
#![tactic(auto)]

mod body_parts;
mod bound;
mod entry_values;
mod instance;
mod place;
mod plans;
mod scratch;

ghost use Rattle.instance_reading.specs.Example.{ExampleRow};
ghost use Rattle.instance_reading.specs.Laws.{OneInstance};

pub use instance::instance_of;
pub use place::Place;
pub use plans::{Plans, plans_of};
pub use scratch::Scratch;

/// In a description whose instances can be read, each result of a constructor's body means one instance at each location, which the
/// description admits, and which holds no label's address.
pub fn one_instance()
    ensures { OneInstance }
{}

/// A worked row: a description that can be read, and a byte that means one instance in it.
pub fn example_row()
    ensures { ExampleRow }
{}

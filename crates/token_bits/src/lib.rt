//! Token classes and their fields: how the bits of a field are read from the bytes of a token, and put into them.
#![tactic(auto)]

mod numbers;
#[cfg(test)]
mod tests;
mod tokens;
mod values;

pub use tokens::{Class, ClassId, ClassList, Field, FieldId, FieldList, Order, Tokens};

//! What stands at a place of an image by any statement that can be matched: the first arm that has a result on the bytes, with the
//! values of its names, or the skip. A statement that is made ready (`prepare`) is a decoder of `image_listing`.
#![tactic(auto)]

mod laws;
mod place;
mod ready;
mod skip;
#[cfg(test)]
mod tests;

pub use laws::{one_taking, taking_of};
pub use ready::{Disassembler, prepare};

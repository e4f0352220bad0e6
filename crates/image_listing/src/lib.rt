//! The listing of an image over any decoder, in constant memory: a line for each place, with its address, its bytes and its text.
//!
//! A decoder says of the front of the bytes that are left at a place how many of them it takes, and gives their text (`Decoder`). `list`
//! reads a source, has the decoder decide place by place, and writes each line before it reads on. It holds no more than 64 bytes of the
//! input and one line, whatever the input's length. What is decided is what the decoder says of all bytes that are left: it is asked only
//! with 32 bytes in hand, or with all that there are.
#![tactic(auto)]

mod answers;
mod decoder;
mod line;
mod listing;
mod step;
#[cfg(test)]
mod tests;
mod window;

pub use answers::{ListFault, Listed, Stop};
pub use decoder::Decoder;
pub use listing::list;

//! A statement made ready to be matched: one decision graph over the cases of all its arms, which tells for a window of bytes the first
//! arm with a result, and its first result.
#![tactic(auto)]

mod cases;
mod laws;
mod matcher;

pub use laws::first_on_front;
pub use matcher::{ArmResult, Matcher, compile};

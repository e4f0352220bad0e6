//! The text of an arm's action, in pieces: words, and the names in braces that stand for what the arm binds.
#![tactic(auto)]

mod action;
mod quoted;
#[cfg(test)]
mod tests;

pub use quoted::pieces_of_action;

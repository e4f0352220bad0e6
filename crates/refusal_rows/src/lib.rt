//! Worked rows: texts that are refused, and texts that are just accepted.
#![tactic(auto)]

#[cfg(test)]
mod tests;

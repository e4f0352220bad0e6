//! Worked rows: what decision graphs of statements answer beside the plain program, how large they are, and how often they ask.
#![tactic(auto)]

#[cfg(test)]
mod agreement_tests;
#[cfg(test)]
mod size_tests;
#[cfg(test)]
mod texts;

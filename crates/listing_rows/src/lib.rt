//! Worked rows: listings by arms that apply constructors, over machines, and inputs that come in pieces or fail.
#![tactic(auto)]

#[cfg(test)]
mod application_tests;
#[cfg(test)]
mod stream_tests;

//! What matching means: what is asked of a description so that each result of a constructor's body is of one instance, what is asked of
//! a statement so that it can be matched, and what the first arm with a result takes at a place, with the values of its names.
//!
//! The definitions stand in `specs/`; there is no code here. The crates that read instances, match statements and elaborate them
//! cite them.
#![tactic(auto)]

//! Conditions on bits as a shared graph, which decides for a window of bytes the first condition that it meets.
//!
//! `build` turns a list of cases into a `Tree`. Its nodes ask for a few bits of a byte each (`Test`), for all bytes of a case where the
//! limit on tested bits is used up (`Check`), or tell the answer (`Leaf`). `Tree::decide` walks from the root to a Leaf, asking a window
//! behind the trait `Bits`; `Peek` is such a window over a slice.
#![tactic(auto)]

mod arena;
mod bits;
mod graph;
mod growing;
mod kids;
mod node;
#[cfg(test)]
mod tests;
mod tree;

pub use bits::{Bits, Peek};
pub use graph::Tree;
pub use growing::{build, build_within};
pub use kids::KidList;
pub use node::{CaseNo, Next, Node, NodeNo};

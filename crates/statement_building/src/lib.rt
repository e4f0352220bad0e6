//! Statements from their trees: the arms that are written out, or one for each instruction, with the names that they bind and the pieces of
//! their actions, or the first arm that does not meet a condition of the language.
#![tactic(auto)]

mod all;
mod arm;
mod fault;
mod statement;
mod unmet;

pub use fault::StatementFault;
pub use statement::elaborate_match;

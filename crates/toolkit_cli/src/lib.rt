//! The program's one call, `run`: what it asks of the outside, and what it leaves there, status by status. The steps by which it reads
//! the texts can be called apart: `read_decls`, `described` and `read_statement`.
#![tactic(auto)]

mod messages;
mod program;
mod status;
mod texts;
mod words;

pub use messages::{Problem, Unit};
pub use program::run;
pub use status::Status;
pub use texts::{TextStop, described, read_decls, read_statement};

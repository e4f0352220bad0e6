//! The trusted edge: real files and streams as the shelf, the sources and the sinks of the toolkit.
//!
//! `Folder` is the files of the current folder, `Reading` any reader of std and `Writing` any writer. Each is a few lines over one call of
//! std, and counts its faults as the toolkit asks: that a fault comes only where the count rose is proved. What a file, a terminal or a
//! pipe holds, gives or takes is not claimed: std tells no contents of these, so these objects tell none. Over a reader or a writer in
//! memory, whose bytes std tells, they tell the same bytes. std's `BufReader` and `BufWriter` are a reader and a writer too: where one
//! stands between, `Writing::flush` hands on what it holds.
//!
//! A caller:
//!
//! ```
//! /// Copies a file of the current folder to standard output.
//! fn main(rt: HostRuntime) -> ExitCode {
//!     let mut shelf = Folder::new(&rt, rt.alloc());
//!     let mut out = Writing::new(rt.stdout());
//!     let Ok(text) = load_text(rt.alloc(), &mut shelf, "notes.txt") else {
//!         return ExitCode::FAILURE;
//!     };
//!     match write_all(&mut out, &text) {
//!         Ok(()) => ExitCode::SUCCESS,
//!         Err(_) => ExitCode::FAILURE,
//!     }
//! }
//! ```
#![tactic(auto)]

mod folder;
mod reading;
#[cfg(test)]
mod tests;
mod writing;

pub use folder::Folder;
pub use reading::Reading;
pub use writing::Writing;

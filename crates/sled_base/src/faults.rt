// Why a call of the outside, or one that stands on it, was refused.
use std::alloc::{AllocError, AllocFailed};
use thiserror::Error;

/// There was no memory for what a call makes.
#[derive(Clone, Copy, Debug, PartialEq, Eq)]
pub struct NoMemory;

impl From<AllocError> for NoMemory {
    fn from(_: AllocError) -> NoMemory {
        NoMemory
    }
}

impl<T: Drop> From<AllocFailed<T>> for NoMemory {
    fn from(_: AllocFailed<T>) -> NoMemory {
        NoMemory
    }
}

/// A read or a write of the outside failed; the count of that object tells it.
#[derive(Clone, Copy, Debug, PartialEq, Eq)]
pub struct Failed;

/// Why a text could not be loaded.
#[derive(Clone, Copy, Debug, PartialEq, Eq, Error)]
pub enum ShelfFault {
    /// The text is absent, or it could not be read.
    #[error("the text cannot be read")]
    Failed,
    /// There was no memory for its bytes.
    #[error("out of memory")]
    NoMemory,
}

/// Why a whole text could not be had.
#[derive(Clone, Copy, Debug, PartialEq, Eq, Error)]
pub enum TextFault {
    /// The shelf failed.
    #[error("the text cannot be read")]
    Unread,
    /// The text has more than `MAX_TEXT` bytes.
    #[error("the text is too long")]
    TooLong,
    /// There was no memory for the text.
    #[error("out of memory")]
    NoMemory,
}

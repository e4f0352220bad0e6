// Results of patterns.
use crate::{Argument, ConstructorId};
use sqlite_items::Items;
use token_bits::FieldId;

/// What was bound inside a constructor's body.
#[cycle(raw)]
#[derive(Debug, Drop)]
pub struct Raw {
    pub entries: Items<RawEntry>,
}

/// An entry of what a result binds. Offsets count from the first byte of the whole match.
#[cycle(raw)]
#[derive(Debug, Drop)]
pub enum RawEntry {
    /// The field was read with this value at this offset.
    Value {
        field: FieldId,
        value: u32,
        at: u8,
    },
    /// The label stands at this offset.
    Mark {
        label: u32,
        at: u8,
    },
    /// The constructor was taken, by an application with these arguments, or with none as an operand of a body.
    Choice {
        constructor: ConstructorId,
        inner: Raw,
        arguments: Items<Argument>,
    },
}

pub type RawList = Items<RawEntry>;

/// A result of a pattern at a place: what it binds, its length in bytes, and whether a longer one may stand beside it.
#[derive(Debug, Drop)]
pub struct Match {
    pub binds: Items<RawEntry>,
    pub len: usize,
    pub loose: bool,
}

pub type MatchList = Items<Match>;

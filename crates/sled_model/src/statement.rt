// Statements and their arms.
use crate::{Name, NameList, Pattern};
use sqlite_items::Items;

/// A piece of an action's text.
#[derive(Debug, Drop)]
pub enum Piece {
    /// The bytes themselves.
    Words(Name),
    /// The value of the arm's name of this number.
    Bound(u32),
}

pub type PieceList = Items<Piece>;

/// An arm. `names` has each name that the pattern binds once, in the order in which they first stand there.
#[derive(Debug, Drop)]
pub struct Arm {
    pub pattern: Pattern,
    pub names: NameList,
    pub action: PieceList,
}

pub type ArmList = Items<Arm>;

/// The arms of a statement, and how many bytes to skip where none of them matches.
#[derive(Debug, Drop)]
pub struct Statement {
    pub arms: ArmList,
    pub skip: Option<u8>,
}

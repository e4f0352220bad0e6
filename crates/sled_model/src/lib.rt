//! The model of a machine and of its instructions: descriptions, patterns and what they mean on bytes, constructors,
//! instances, and statements.
#![tactic(auto)]

mod admits;
mod admitted;
mod bodies;
mod choices;
mod constructor;
mod constructor_names;
mod context;
mod copies;
mod first_arm;
mod instance;
mod pattern;
mod plain;
mod raw;
mod shape;
mod spec;
mod statement;
#[cfg(test)]
mod tests;
mod values;

pub use bodies::results;
pub use constructor::{
    Atom, Constructor, ConstructorId, ConstructorList, Equation, EquationList, KindList, Name,
    NameList, OperandKind, Term, TermList, TypeId,
};
pub use constructor_names::ConstructorNames;
pub use copies::copy_arguments;
pub use first_arm::first;
pub use instance::{Instance, LabelId, Operand, OperandList};
pub use pattern::{Argument, ArgumentList, Pattern, PatternList, Relation};
pub use raw::{Match, MatchList, Raw, RawEntry, RawList};
pub use shape::{ClassIdList, Shape, ShapeList};
pub use spec::Spec;
pub use statement::{Arm, ArmList, Piece, PieceList, Statement};
pub use values::{is_named, name_value};

// Instances of constructors.
use crate::ConstructorId;
use sqlite_items::{Boxed, Items};

/// The number of a label of an assembly text, counted from 0.
#[derive(Clone, Copy, Debug, PartialEq, Eq)]
pub struct LabelId(pub usize);

/// A constructor with its operands.
#[cycle(instance)]
#[derive(Debug, Drop)]
pub struct Instance {
    pub constructor: ConstructorId,
    pub operands: Items<Operand>,
}

/// An operand of an instance.
#[cycle(instance)]
#[derive(Debug, Drop)]
pub enum Operand {
    /// A number.
    Num(i64),
    /// The address of a label, and a number added to it.
    Place { label: LabelId, add: i64 },
    /// An instance.
    Sub(Boxed<Instance>),
}

pub type OperandList = Items<Operand>;

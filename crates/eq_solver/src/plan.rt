// Plans. Their equations name a bare field of the body by its cell: its place among the bare fields, from left to right.
use sled_model::{Atom, EquationList, TermList};
use sqlite_items::Items;

/// What a step does with its equation.
#[derive(Clone, Copy, Debug, PartialEq, Eq)]
pub enum Work {
    /// All its fields have values: it holds or not.
    Check,
    /// Only this cell has no value, and stands in one term.
    Solve {
        cell: u32,
        signed: bool,
        coefficient: i64,
    },
}

/// The equation of this number, and what is done with it.
#[derive(Clone, Copy, Debug, PartialEq, Eq)]
pub struct SolvingStep {
    pub equation: u16,
    pub work: Work,
}

pub type SolvingStepList = Items<SolvingStep>;

/// The open fields of a sum, those without a value yet: none, one field, or more.
#[derive(Clone, Copy, Debug, PartialEq, Eq)]
pub enum Open {
    Nothing,
    One(u32),
    Many,
}

/// How a field stands in a sum: not at all, in one term, or in more.
#[derive(Clone, Copy, Debug, PartialEq, Eq)]
pub enum Occurrence {
    Absent,
    Once { signed: bool, coefficient: i64 },
    Often,
}

/// A whole operand, or a slice of one, has the value of a sum.
#[derive(Debug, Drop)]
pub struct Value {
    pub target: Atom,
    pub terms: TermList,
    pub rest: i64,
}

pub type ValueList = Items<Value>;

/// The value that each equation gives its target, and the numbers of those that give slices: of one operand from the highest bit down.
#[derive(Debug, Drop)]
pub struct OperandValues {
    pub values: ValueList,
    pub slices: Items<usize>,
}

/// Where a bare field's value comes from: the equations, or the operand of this number, as it is or sign-extended.
#[derive(Clone, Copy, Debug, PartialEq, Eq)]
pub enum Source {
    Hidden,
    Plain(u32),
    Extended(u32),
}

pub type SourceList = Items<Source>;

/// How a constructor's equations are solved. The lists of `halves` (half of how many values the field has), `sources` and `hidden`
/// have one entry for each cell.
#[derive(Debug, Drop)]
pub struct Plan {
    pub halves: Items<i64>,
    pub sources: SourceList,
    pub hidden: Items<bool>,
    pub equations: EquationList,
    pub steps: SolvingStepList,
    /// The value that each equation gives its target.
    pub values: ValueList,
    /// The numbers of the values of slices: those of one operand from the highest bit down.
    pub slices: Items<usize>,
}

/// The number of the first equation in solving order that has no common solution with those before it.
#[derive(Clone, Copy, Debug, PartialEq, Eq)]
pub struct NoSolution {
    pub equation: u16,
}

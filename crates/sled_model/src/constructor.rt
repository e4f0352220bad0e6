// Constructors, with their operands and equations.
use crate::Pattern;
use sqlite_items::Items;
use token_bits::FieldId;

/// The bytes of a name.
pub type Name = Items<u8>;

pub type NameList = Items<Name>;

/// The number of a type, counted from 0.
#[derive(Clone, Copy, Debug, PartialEq, Eq)]
pub struct TypeId(pub u32);

/// The number of a constructor, counted from 0.
#[derive(Clone, Copy, Debug, PartialEq, Eq)]
pub struct ConstructorId(pub u32);

/// What an operand of a constructor is.
#[derive(Clone, Copy, Debug, PartialEq, Eq)]
pub enum OperandKind {
    /// The field's value.
    Plain(FieldId),
    /// The field's value, with its sign extended.
    Extended(FieldId),
    /// An instance of a constructor of the type.
    Typed(TypeId),
    /// A whole number, of which an equation uses all.
    Whole,
    /// A whole number, of which the equations use slices.
    Sliced,
}

/// A number that an equation speaks of. Operands and labels are numbered from 0.
#[derive(Clone, Copy, Debug, PartialEq, Eq)]
pub enum Atom {
    /// A whole operand.
    Name(u32),
    /// A field's value.
    Field(FieldId),
    /// A field's value, with its sign extended.
    Signed(FieldId),
    /// The bits `lo` to `hi` of a sliced operand.
    Slice { operand: u32, lo: u8, hi: u8 },
    /// The address at which a label of the body stands.
    Label(u32),
}

/// A multiple of an atom.
#[derive(Clone, Copy, Debug, PartialEq, Eq)]
pub struct Term {
    pub coefficient: i64,
    pub atom: Atom,
}

pub type TermList = Items<Term>;

/// The sum of the terms, plus the rest, is 0.
#[derive(Debug, Drop)]
pub struct Equation {
    pub terms: TermList,
    pub rest: i64,
}

pub type KindList = Items<OperandKind>;

pub type EquationList = Items<Equation>;

/// A constructor: of a type, or of an instruction where `result` is None. `names` has the name of each operand, in order.
#[derive(Debug, Drop)]
pub struct Constructor {
    pub name: Name,
    pub result: Option<TypeId>,
    pub operands: KindList,
    pub names: NameList,
    pub equations: EquationList,
    pub body: Pattern,
}

pub type ConstructorList = Items<Constructor>;

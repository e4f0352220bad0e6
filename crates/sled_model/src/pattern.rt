// Patterns.
ghost use Rattle.std.specs.Prelude.{◌≡◌};
ghost use Rattle.sled_model.specs.Results.{has_relation};

use crate::ConstructorId;
use sqlite_items::{Boxed, Items};
use token_bits::{ClassId, FieldId};

/// How a field's value stands to a number.
#[derive(Clone, Copy, Debug, PartialEq, Eq)]
pub enum Relation {
    Equal,
    Differs,
    Below,
    AtMost,
    Above,
    AtLeast,
}

impl Relation {
    /// Whether the value has the relation to the limit.
    pub fn holds(self, value: u32, limit: u32) -> bool
        ensures { result ≡ has_relation self value limit }
    {
        match self {
            Relation::Equal => value == limit,
            Relation::Differs => value != limit,
            Relation::Below => value < limit,
            Relation::AtMost => value <= limit,
            Relation::Above => value > limit,
            Relation::AtLeast => value >= limit,
        }
    }
}

/// What bytes have to be. No list of a `Both`, `Either` or `Chain` is empty.
#[cycle(pattern)]
#[derive(Debug, Drop)]
pub enum Pattern {
    /// A token of the class.
    Token(ClassId),
    /// A token whose field has the relation to the value.
    Limit {
        field: FieldId,
        relation: Relation,
        value: u32,
    },
    /// A token, whose field's value is bound.
    Bind(FieldId),
    /// In a constructor's body, its operand of this number, which is a typed one.
    Operand(u32),
    /// The pattern, at a place that is marked as the label of this number.
    Label(u32, Boxed<Pattern>),
    /// All of the patterns, at one place.
    Both(Items<Pattern>),
    /// Any of the patterns.
    Either(Items<Pattern>),
    /// Each pattern where the one before it ends.
    Chain(Items<Pattern>),
    /// The pattern, and what of its length is left open.
    Loose(Boxed<Pattern>),
    /// In an arm, an application of the constructor.
    Apply {
        constructor: ConstructorId,
        arguments: Items<Argument>,
    },
    /// No bytes.
    Empty,
}

/// An argument of an application.
#[cycle(pattern)]
#[derive(Debug, Drop)]
pub enum Argument {
    /// Anything, which gets no name.
    Any,
    /// Anything, bound to the arm's name of this number.
    Name(u32),
    /// What an inner application, the pattern in the box, admits.
    Inner(Boxed<Pattern>),
}

pub type PatternList = Items<Pattern>;

pub type ArgumentList = Items<Argument>;

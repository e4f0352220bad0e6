//! Trees of descriptions and statements. A tree owns its words: each Word, Number and Text is held as the bytes of its lexeme.

use sqlite_items::{Boxed, Items};

/// The bytes of a Word, a Number or a Text, as they stand in the text.
pub type Spelling = Items<u8>;

pub type SpellingList = Items<Spelling>;

pub type PatternTreeList = Items<PatternTree>;

pub type ArgumentTreeList = Items<ArgumentTree>;

pub type FieldTreeList = Items<FieldTree>;

pub type ItemTreeList = Items<ItemTree>;

pub type OperandTreeList = Items<OperandTree>;

pub type EqTreeList = Items<EqTree>;

pub type TermTreeList = Items<TermTree>;

pub type ArmTreeList = Items<ArmTree>;

/// `=`, `!=`, `<`, `<=`, `>` or `>=`.
#[derive(Clone, Copy, Debug, PartialEq, Eq)]
pub enum RelationTree {
    Equal,
    Differs,
    Below,
    AtMost,
    Above,
    AtLeast,
}

/// What a field is compared with: a number, `{first to last}` or `{a b ..}`.
#[derive(Debug, Drop)]
pub enum ValueTree {
    One(Spelling),
    Range { first: Spelling, last: Spelling },
    Listed(SpellingList),
}

/// An argument of an application: `_`, a name or an application.
#[derive(Debug, Drop)]
pub enum ArgumentTree {
    Any,
    Name(Spelling),
    Inner {
        constructor: Spelling,
        arguments: ArgumentTreeList,
    },
}

/// A pattern. A chain of one operator is one node with at least two members: `Either` for `|`, `Chain` for `;`, `Both` for `&`.
#[derive(Debug, Drop)]
pub enum PatternTree {
    Either(PatternTreeList),
    Chain(PatternTreeList),
    Both(PatternTreeList),
    Labelled {
        label: Spelling,
        pattern: Boxed<PatternTree>,
    },
    /// A pattern with an ellipsis behind it.
    Loose(Boxed<PatternTree>),
    /// A pattern in parentheses.
    Group(Boxed<PatternTree>),
    /// `epsilon`
    Empty,
    Word(Spelling),
    Limit {
        field: Spelling,
        relation: RelationTree,
        value: ValueTree,
    },
    Apply {
        constructor: Spelling,
        arguments: ArgumentTreeList,
    },
}

/// `name lo:hi`
#[derive(Debug, Drop)]
pub struct FieldTree {
    pub name: Spelling,
    pub lo: Spelling,
    pub hi: Spelling,
}

/// A place of a group's list: a name, or `_`.
#[derive(Debug, Drop)]
pub enum ItemTree {
    Name(Spelling),
    Skip,
}

/// An operand: `word`, `word!` or `name : result`.
#[derive(Debug, Drop)]
pub enum OperandTree {
    Word(Spelling),
    Extended(Spelling),
    Typed { name: Spelling, result: Spelling },
}

/// What stands in a term of an equation: `word`, `word!` or `word@[lo:hi]`.
#[derive(Debug, Drop)]
pub enum PlaceTree {
    Word(Spelling),
    Extended(Spelling),
    Slice {
        word: Spelling,
        lo: Spelling,
        hi: Spelling,
    },
}

/// A term of a sum. `minus` says that `-` stands before it.
#[derive(Debug, Drop)]
pub enum TermTree {
    Number {
        minus: bool,
        number: Spelling,
    },
    Place {
        minus: bool,
        coefficient: Option<Spelling>,
        place: PlaceTree,
    },
}

/// A sum of at least one term.
#[derive(Debug, Drop)]
pub struct SumTree {
    pub terms: TermTreeList,
}

/// `left = right`
#[derive(Debug, Drop)]
pub struct EqTree {
    pub left: SumTree,
    pub right: SumTree,
}

/// A word that begins a section of definitions.
#[derive(Clone, Copy, Debug, PartialEq, Eq)]
pub enum Section {
    Patterns,
    Constructors,
}

/// A declaration of a description. A `Heading` is the word that begins a section of pattern definitions or of constructors.
#[derive(Debug, Drop)]
pub enum Decl {
    Class {
        name: Spelling,
        width: Spelling,
        little: bool,
        fields: FieldTreeList,
    },
    Heading(Section),
    Definition {
        name: Spelling,
        items: Option<ItemTreeList>,
        pattern: PatternTree,
    },
    ConstructorDecl {
        opcode: Spelling,
        operands: OperandTreeList,
        result: Option<Spelling>,
        equations: EqTreeList,
        body: PatternTree,
    },
}

/// `case pattern => action`
#[derive(Debug, Drop)]
pub struct ArmTree {
    pub pattern: PatternTree,
    pub action: Spelling,
}

/// `all`, or the arms as they stand.
#[derive(Debug, Drop)]
pub enum ArmsTree {
    All,
    Listed(ArmTreeList),
}

/// A statement: `match`, its arms, and the number of `else skip`, if it stands there.
#[derive(Debug, Drop)]
pub struct MatchTree {
    pub arms: ArmsTree,
    pub skip: Option<Spelling>,
}

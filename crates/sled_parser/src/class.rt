//! What a lexeme means to the grammar.

ghost use Rattle.std.specs.Prelude.{◌≡◌, bytes_eq};
ghost use Rattle.sled_parser.specs.Pieces as spec;

use sled_lexer::Kind;

/// A mark, a reserved word, or a kind of lexeme whose text is free.
#[derive(Clone, Copy, Debug, PartialEq, Eq)]
pub enum Class {
    /// No lexeme is left.
    End,
    /// `|`
    Bar,
    /// `;`
    Semicolon,
    /// `&`
    And,
    /// `(`
    Open,
    /// `)`
    Close,
    /// `{`
    OpenBrace,
    /// `}`
    CloseBrace,
    /// `[`
    OpenBracket,
    /// `]`
    CloseBracket,
    /// `:`
    Colon,
    /// `,`
    Comma,
    /// `_`
    Underscore,
    /// `...`
    Ellipsis,
    /// `=`
    Equal,
    /// `!=`
    Differs,
    /// `<`
    Below,
    /// `<=`
    AtMost,
    /// `>`
    Above,
    /// `>=`
    AtLeast,
    /// `=>`
    Arrow,
    /// `@`
    At,
    /// `!`
    Bang,
    /// `+`
    Plus,
    /// `-`
    Minus,
    /// `*`
    Star,
    /// `all`
    All,
    /// `case`
    Case,
    /// `constructors`
    Constructors,
    /// `else`
    Else,
    /// `epsilon`
    Epsilon,
    /// `fields`
    Fields,
    /// `is`
    Is,
    /// `little`
    Little,
    /// `match`
    Match,
    /// `of`
    Of,
    /// `patterns`
    Patterns,
    /// `skip`
    Skip,
    /// `to`
    To,
    /// `version`
    Version,
    /// A Word that is not reserved.
    Name,
    Number,
    Text,
    /// No lexeme has this class: each mark has its own.
    Other,
}

fn is(text: &[u8], word: &[u8]) -> bool
    ensures { result ≡ bytes_eq text.now word.now }
{
    text == word
}

#[tactic(auto, unfolding(crate::specs::Pieces::mark_class))]
fn mark_class(text: &[u8]) -> Class
    ensures { result ≡ spec.mark_class text.now }
{
    if is(text, b"|") {
        return Class::Bar;
    }
    if is(text, b";") {
        return Class::Semicolon;
    }
    if is(text, b"&") {
        return Class::And;
    }
    if is(text, b"(") {
        return Class::Open;
    }
    if is(text, b")") {
        return Class::Close;
    }
    if is(text, b"{") {
        return Class::OpenBrace;
    }
    if is(text, b"}") {
        return Class::CloseBrace;
    }
    if is(text, b"[") {
        return Class::OpenBracket;
    }
    if is(text, b"]") {
        return Class::CloseBracket;
    }
    if is(text, b":") {
        return Class::Colon;
    }
    if is(text, b",") {
        return Class::Comma;
    }
    if is(text, b"_") {
        return Class::Underscore;
    }
    if is(text, b"...") {
        return Class::Ellipsis;
    }
    if is(text, b"=") {
        return Class::Equal;
    }
    if is(text, b"!=") {
        return Class::Differs;
    }
    if is(text, b"<") {
        return Class::Below;
    }
    if is(text, b"<=") {
        return Class::AtMost;
    }
    if is(text, b">") {
        return Class::Above;
    }
    if is(text, b">=") {
        return Class::AtLeast;
    }
    if is(text, b"=>") {
        return Class::Arrow;
    }
    if is(text, b"@") {
        return Class::At;
    }
    if is(text, b"!") {
        return Class::Bang;
    }
    if is(text, b"+") {
        return Class::Plus;
    }
    if is(text, b"-") {
        return Class::Minus;
    }
    if is(text, b"*") {
        return Class::Star;
    }
    Class::Other
}

#[tactic(auto, unfolding(crate::specs::Pieces::word_class))]
fn word_class(text: &[u8]) -> Class
    ensures { result ≡ spec.word_class text.now }
{
    if is(text, b"all") {
        return Class::All;
    }
    if is(text, b"case") {
        return Class::Case;
    }
    if is(text, b"constructors") {
        return Class::Constructors;
    }
    if is(text, b"else") {
        return Class::Else;
    }
    if is(text, b"epsilon") {
        return Class::Epsilon;
    }
    if is(text, b"fields") {
        return Class::Fields;
    }
    if is(text, b"is") {
        return Class::Is;
    }
    if is(text, b"little") {
        return Class::Little;
    }
    if is(text, b"match") {
        return Class::Match;
    }
    if is(text, b"of") {
        return Class::Of;
    }
    if is(text, b"patterns") {
        return Class::Patterns;
    }
    if is(text, b"skip") {
        return Class::Skip;
    }
    if is(text, b"to") {
        return Class::To;
    }
    if is(text, b"version") {
        return Class::Version;
    }
    Class::Name
}

pub fn class_of(kind: Kind, text: &[u8]) -> Class
    ensures { result ≡ spec.class_of kind text.now }
{
    match kind {
        Kind::Word => word_class(text),
        Kind::Number => Class::Number,
        Kind::Text => Class::Text,
        Kind::Mark => mark_class(text),
    }
}

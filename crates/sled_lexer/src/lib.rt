//! The lexemes of a description or a statement: Words, Numbers, Texts and Marks, each with the place where it stands.
//!
//! `lex` cuts a whole text. Blanks are the bytes 9, 10, 13 and 32, and a comment runs from `#` to just before the next byte 10,
//! or to the end. Between blanks and comments each lexeme is as long as possible, so `x!=3` is `x`, `!=` and `3`.
//! What a list of lexemes and a fault are, `specs/Lexemes.antt` says. A text has exactly one list whose Numbers are in range, or
//! exactly one fault, and `lex` answers it unless memory is wanting.
//!
//! A caller:
//!
//! ```
//! /// How many Words stand in a text.
//! pub fn count_words(alloc: Global, text: &[u8]) -> Result<usize, LexFault>
//!     requires { length text.now ≤ MAX_TEXT }
//! {
//!     let lexemes = lex(alloc, text)?;
//!     Ok(lexemes.iter().filter(|l| l.kind == Kind::Word).count())
//! }
//! ```
#![tactic(auto)]

ghost use Rattle.std.specs.Prelude.{◌≡◌, ◌≢◌, ◌<◌, ◌≤◌, ◌^◌, length, drop, slice_index, ◌+◌, false, List, IfOk, IfErr, MatchResult};
ghost use Rattle.sled_lexer.specs.declared.Lexeme.{Lexeme};
ghost use Rattle.sled_lexer.specs.declared.LexFault.{LexFault};
ghost use Rattle.sled_lexer.specs.Spelled.{begins_gap};
ghost use Rattle.sled_lexer.specs.Cut.{gap_len, Follows, Holds};
ghost use Rattle.sled_lexer.specs.Lexemes.{Lexemes, InRange, IsLexFault, IsFaultAfter, AllWithin};

mod number;
mod piece;
#[cfg(test)]
mod tests;

pub use number::{number_in_range, number_value, parse_number};
use piece::{Stop, gap, piece};
use sled_base::{MAX_TEXT, Span};
use std::alloc::{AllocFailed, Global};
use thiserror::Error;

/// What a lexeme is, by how it is spelled.
#[derive(Clone, Copy, Debug, PartialEq, Eq)]
pub enum Kind {
    /// A letter, and then letters, digits and `_`.
    Word,
    /// Decimal digits, or `0x` and at least one hexadecimal digit of either case.
    Number,
    /// A `"`, bytes 32 to 126 other than `"`, and a `"`.
    Text,
    /// One of `( ) [ ] { } , ; : & | = != < <= > >= => ... @ ! + - * _`.
    Mark,
}

/// A lexeme, by its kind and where it stands.
#[derive(Clone, Copy, Debug, PartialEq, Eq)]
pub struct Lexeme {
    pub kind: Kind,
    pub span: Span,
}

/// Why a text has no lexemes, by the place of what comes first. Places are counted in bytes from 0.
#[derive(Clone, Copy, Debug, PartialEq, Eq, Error)]
pub enum LexFault {
    /// The place of a byte that begins no lexeme, or that stands in an open Text and may not.
    #[error("byte not allowed at {0}")]
    BadByte(u32),
    /// The place of the opening `"` of a Text that is still open at the end of its line or of the text.
    #[error("text not closed at {0}")]
    OpenText(u32),
    /// The place of the first digit of a Number above 4,294,967,295.
    #[error("number too large at {0}")]
    NumberTooBig(u32),
    /// There was no memory.
    #[error("out of memory")]
    NoMemory,
}

impl<T: Drop> From<AllocFailed<T>> for LexFault {
    ghost use Rattle.std.specs.Prelude.{◌≡◌};
    ghost use Rattle.sled_lexer.specs.declared.LexFault.TheVariants.{NoMemory};

    ghost from_gives = { λ _ e. e ≡ NoMemory };

    fn from(_: AllocFailed<T>) -> LexFault {
        LexFault::NoMemory
    }
}

/// How many bytes from a place on are blanks and comments.
fn gap_from(text: &[u8], at: usize) -> usize
    requires { at ≤ length text.now }
    ensures value { result ≡ gap_len false (drop at text.now) }
    ensures within { at + result ≤ length text.now }
    ensures stops { at + result < length text.now → begins_gap (slice_index text.now (at + result)) ≡ false }
{
    gap(&text[at..])
}

/// The longest lexeme at a place where no blank and no comment begins.
fn piece_from(text: &[u8], at: usize) -> Result<(Kind, usize), Stop>
    requires within { at < length text.now }
    requires small { length text.now < 2 ^ 32 }
    requires begins { begins_gap (slice_index text.now at) ≡ false }
    ensures { Holds (drop at text.now) result }
{
    piece(&text[at..])
}

/// The first lexeme at or behind a place, if one comes.
fn next(text: &[u8], at: usize) -> Result<Option<Lexeme>, LexFault>
    requires within { at ≤ length text.now }
    requires small { length text.now ≤ MAX_TEXT }
    ensures found { IfOk result (λ next. Follows text.now at next) }
    ensures fault { IfErr result (λ f. IsFaultAfter text.now at f) }
{
    let start = at + gap_from(text, at);
    if start >= text.len() {
        return Ok(None);
    }
    match piece_from(text, start) {
        Ok((kind, len)) => Ok(Some(Lexeme {
            kind,
            span: Span {
                start: start as u32,
                end: (start + len) as u32,
            },
        })),
        Err(Stop::BadByte(from)) => Err(LexFault::BadByte((start + from) as u32)),
        Err(Stop::OpenText) => Err(LexFault::OpenText(start as u32)),
        Err(Stop::NumberTooBig) => Err(LexFault::NumberTooBig(start as u32)),
    }
}

/// The lexemes of a text of at most 1,048,576 bytes, in order.
///
/// A text that has none, or a Number above 4,294,967,295, is refused at its leftmost fault. `NoMemory` comes where there was
/// no memory for the list.
pub fn lex(alloc: Global, text: &[u8]) -> Result<Vec<Lexeme>, LexFault>
    requires { length text.now ≤ MAX_TEXT }
    ensures ok { IfOk result (λ v. Lexemes text.now v.items) }
    ensures range { IfOk result (λ v. InRange text.now v.items) }
    ensures within { IfOk result (λ v. AllWithin text.now v.items) }
    ensures few { IfOk result (λ v. length v.items ≤ length text.now) }
    ensures fault { IfErr result (λ f. f ≢ LexFault.NoMemory → IsLexFault text.now f) }

    // There is no other list and no other fault, and never both.
    ensures only_list { (ls : List Lexeme) → Lexemes text.now ls → InRange text.now ls
        → MatchResult result (λ v. v.items ≡ ls) (λ f. f ≡ LexFault.NoMemory) }
    ensures only_fault { (f : LexFault) → IsLexFault text.now f
        → MatchResult result (λ _. ⊥) (λ g. g ≢ LexFault.NoMemory → g ≡ f) }
{
    let mut found = Vec::new(alloc);
    let mut at = 0;
    while let Some(lexeme) = next(text, at)? {
        found.push(lexeme)?;
        at = lexeme.span.end as usize;
    }
    Ok(found)
}

//! Whole texts.

ghost use Rattle.std.specs.Prelude.{◌≡◌, ◌≤◌, ◌↔◌, ℕ, List, length, Some, None, Err, IfOk, OnOk};
ghost use Rattle.sled_lexer.specs.Lexemes.{Lexemes};
ghost use Rattle.sled_parser.specs.declared.tree.Decl.{Decl};
ghost use Rattle.sled_parser.specs.declared.tree.MatchTree.{MatchTree};
ghost use Rattle.sled_parser.specs.Pieces.{Input, pieces};
ghost use Rattle.sled_parser.specs.Nesting as spec;
ghost use Rattle.sled_parser.specs.Declarations.{IsDescription};
ghost use Rattle.sled_parser.specs.Statements.{IsStatement};
ghost use Rattle.sled_parser.specs.Parse.{Answers, AnswersAll, refusal};

use crate::cursor::Cursor;
use crate::declaration::declarations;
use crate::fault::{Fault, SyntaxFault};
use crate::nesting::nest_fault;
use crate::statement::whole_statement;
use crate::tree::{Decl, MatchTree};
use sled_base::MAX_NESTING;
use sled_lexer::Lexeme;
use std::alloc::Global;

/// The refusal of a text at whose lexemes a rule stopped.
fn refused(fault: Fault) -> SyntaxFault
    ensures { result ≡ refusal fault }
{
    match fault {
        Fault::Syntax => SyntaxFault::Syntax,
        Fault::NoMemory => SyntaxFault::NoMemory,
    }
}

/// The tree of a statement, from the lexemes of its text.
///
/// Refused are a text with a bracket that opens inside `MAX_NESTING` others (`Nesting`, with the place of the first such bracket),
/// and else one that is no statement (`Syntax`).
pub fn parse_match(alloc: Global, text: &[u8], lexemes: &[Lexeme]) -> Result<MatchTree, SyntaxFault>
    requires small { length text.now ≤ 1048576 }
    requires lexemes { Lexemes text.now lexemes.now }

    // What is answered unparses to the lexemes.
    ensures tree { IfOk result (λ t. IsStatement (pieces text.now lexemes.now) t) }
    ensures shallow { OnOk result (spec.nest_fault text.now lexemes.now ≡ None) }

    // A tree that unparses to the lexemes is the answer, unless memory fails.
    ensures only { (t : MatchTree) → IsStatement (pieces text.now lexemes.now) t → spec.nest_fault text.now lexemes.now ≡ None → Answers t result }

    ensures nesting { (p : ℕ) → (result ≡ Err (SyntaxFault.Nesting p)) ↔ (spec.nest_fault text.now lexemes.now ≡ Some p) }
    ensures syntax { result ≡ Err SyntaxFault.Syntax → (spec.nest_fault text.now lexemes.now ≡ None) × ((t : MatchTree) → ¬ IsStatement (pieces text.now lexemes.now) t) }
{
    if let Some(place) = nest_fault(text, lexemes) {
        return Err(SyntaxFault::Nesting(place));
    }
    let mut cursor = Cursor::new(text, lexemes);
    match whole_statement(alloc, &mut cursor, MAX_NESTING + 1) {
        Ok(tree) => Ok(tree),
        Err(fault) => Err(refused(fault)),
    }
}

/// The declarations of a description, from the lexemes of its text.
///
/// Refused are a text with a bracket that opens inside `MAX_NESTING` others (`Nesting`, with the place of the first such bracket),
/// and else one that is no description (`Syntax`).
pub fn parse_spec(alloc: Global, text: &[u8], lexemes: &[Lexeme]) -> Result<Vec<Decl>, SyntaxFault>
    requires small { length text.now ≤ 1048576 }
    requires lexemes { Lexemes text.now lexemes.now }

    // What is answered unparses to the lexemes.
    ensures tree { IfOk result (λ v. IsDescription (pieces text.now lexemes.now) v.items) }
    ensures shallow { OnOk result (spec.nest_fault text.now lexemes.now ≡ None) }

    // Declarations that unparse to the lexemes are the answer, unless memory fails.
    ensures only { (t : List Decl) → IsDescription (pieces text.now lexemes.now) t → spec.nest_fault text.now lexemes.now ≡ None → AnswersAll t result }

    ensures nesting { (p : ℕ) → (result ≡ Err (SyntaxFault.Nesting p)) ↔ (spec.nest_fault text.now lexemes.now ≡ Some p) }
    ensures syntax { result ≡ Err SyntaxFault.Syntax → (spec.nest_fault text.now lexemes.now ≡ None) × ((t : List Decl) → ¬ IsDescription (pieces text.now lexemes.now) t) }
{
    if let Some(place) = nest_fault(text, lexemes) {
        return Err(SyntaxFault::Nesting(place));
    }
    let mut cursor = Cursor::new(text, lexemes);
    match declarations(alloc, &mut cursor, MAX_NESTING + 1) {
        Ok(declarations) => Ok(declarations),
        Err(fault) => Err(refused(fault)),
    }
}

/// A list of lexemes is the description of at most one list of declarations.
pub fn one_description()
    ensures { (i : Input) (t u : List Decl) → IsDescription i t → IsDescription i u → t ≡ u }
{}

/// A list of lexemes is at most one statement.
pub fn one_statement()
    ensures { (i : Input) (t u : MatchTree) → IsStatement i t → IsStatement i u → t ≡ u }
{}

//! How deep brackets stand inside one another, counted over the lexemes of a text.

ghost use Rattle.std.specs.Prelude.{◌≡◌};
ghost use Rattle.sled_lexer.specs.Lexemes.{AllWithin};
ghost use Rattle.sled_parser.specs.Nesting as spec;

use crate::class::{Class, class_of};
use sled_base::MAX_NESTING;
use sled_lexer::Lexeme;

fn opens(class: Class) -> bool
    ensures { result ≡ spec.opens class }
{
    matches!(class, Class::Open | Class::OpenBrace | Class::OpenBracket)
}

fn closes(class: Class) -> bool
    ensures { result ≡ spec.closes class }
{
    matches!(
        class,
        Class::Close | Class::CloseBrace | Class::CloseBracket
    )
}

/// Where the first bracket opens that stands inside `MAX_NESTING` others.
#[tactic(auto, unfolding(crate::specs::Nesting::nest_fault_from, crate::specs::Nesting::too_deep, crate::specs::Nesting::depth_behind))]
pub fn nest_fault(text: &[u8], lexemes: &[Lexeme]) -> Option<u32>
    requires { AllWithin text.now lexemes.now }
    ensures { result ≡ spec.nest_fault text.now lexemes.now }
{
    let mut depth = 0;
    let mut left = lexemes;
    while let Some((lexeme, behind)) = left.split_first() {
        let span = lexeme.span;
        let class = class_of(lexeme.kind, &text[span.start as usize..span.end as usize]);
        if opens(class) {
            if depth >= MAX_NESTING {
                return Some(span.start);
            }
            depth += 1;
        } else if closes(class) {
            depth = depth.saturating_sub(1);
        }
        left = behind;
    }
    None
}

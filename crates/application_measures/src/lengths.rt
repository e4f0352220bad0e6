// How long a pattern is, over operands whose lengths are given.
ghost use Rattle.std.specs.Prelude.{◌≡◌, ◌≤◌, ◌+◌, get_or, map, max, sum};
ghost use Rattle.sled_model.specs.Measures.{capped, class_len as class_len_of, greatest};
ghost use Rattle.token_bits.specs.Tokens.{token_len};
ghost use Rattle.application_measures.specs.Parts.{len_among};

use crate::caps::{CAP, capped_sum};
use sled_model::Pattern;
use token_bits::{ClassId, FieldId, Tokens};

/// How many bytes the longest alternative of the pattern has. Operand k has the length `operands[k]`, or 0 past these, and an
/// application has none.
#[tactic(auto, using(crate::proofs::LengthLaws::len_laws))]
#[cycle(len)]
pub(crate) fn len_over(tokens: &Tokens, operands: &[u64], pattern: &Pattern) -> u64
    ensures { result ≡ capped (len_among tokens.now operands.now pattern.now) }
{
    match pattern {
        Pattern::Token(class) => class_len(tokens, *class),
        Pattern::Limit { field, .. } => field_len(tokens, *field),
        Pattern::Bind(field) => field_len(tokens, *field),
        Pattern::Operand(operand) => operand_len(operands, *operand),
        Pattern::Label(_, inner) => len_over(tokens, operands, inner.get()),
        Pattern::Both(parts) => greatest_len(tokens, operands, parts.as_slice()),
        Pattern::Either(parts) => greatest_len(tokens, operands, parts.as_slice()),
        Pattern::Chain(parts) => len_sum(tokens, operands, parts.as_slice()),
        Pattern::Loose(inner) => len_over(tokens, operands, inner.get()),
        Pattern::Apply { .. } => 0,
        Pattern::Empty => 0,
    }
}

#[cycle(len)]
fn len_sum(tokens: &Tokens, operands: &[u64], parts: &[Pattern]) -> u64
    ensures { result ≡ capped (sum (map (len_among tokens.now operands.now) parts.now)) }
{
    let mut all = 0;
    for part in parts {
        all = capped_sum(all, len_over(tokens, operands, part));
    }
    all
}

#[cycle(len)]
fn greatest_len(tokens: &Tokens, operands: &[u64], parts: &[Pattern]) -> u64
    ensures { result ≡ capped (greatest (map (len_among tokens.now operands.now) parts.now)) }
{
    let mut all = 0;
    for part in parts {
        all = all.max(len_over(tokens, operands, part));
    }
    all
}

fn operand_len(operands: &[u64], operand: u32) -> u64
    ensures { result ≡ capped (get_or operands.now operand 0) }
{
    match operands.get(operand as usize) {
        Some(len) => (*len).min(CAP),
        None => 0,
    }
}

fn class_len(tokens: &Tokens, class: ClassId) -> u64
    ensures value { result ≡ class_len_of tokens.now class }
    ensures small { result ≤ 31 }
{
    match tokens.class(class) {
        Some(class) => class.byte_count() as u64,
        None => 0,
    }
}

fn field_len(tokens: &Tokens, field: FieldId) -> u64
    ensures value { result ≡ token_len tokens.now field }
    ensures small { result ≤ 31 }
{
    match tokens.class_of(field) {
        Some(class) => class.byte_count() as u64,
        None => 0,
    }
}

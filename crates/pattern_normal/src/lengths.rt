// How long a pattern is.
ghost use Rattle.std.specs.Prelude.{◌≡◌, ◌≤◌, ◌+◌, map, max, sum};
ghost use Rattle.sled_model.specs.Leaves.{AllLeaves, NamesNoConstructor};
ghost use Rattle.sled_model.specs.Measures.{capped, class_len as class_len_of, greatest, pattern_len};
ghost use Rattle.token_bits.specs.Tokens.{token_len};
ghost use Rattle.pattern_normal.specs.Alone.{lone_len as lone_len_of};

use crate::caps::capped_sum;
use sled_model::{Pattern, Spec};
use token_bits::{ClassId, FieldId, Tokens};

/// How many bytes the longest alternative of the pattern has, where its conjunctions agree: a token as many as its class, `;` adds, and
/// `&` and `|` take the greatest of their sides. What is above 1,000,000 counts as 1,000,000.
pub fn longest(spec: &Spec, pattern: &Pattern) -> u64
    requires { AllLeaves NamesNoConstructor pattern.now }
    ensures { result ≡ capped (pattern_len spec.now pattern.now) }
{
    lone_len(&spec.tokens, pattern)
}

/// The same of a pattern where no constructor is known: there an operand and an application have no bytes.
#[tactic(auto, using(crate::proofs::Measured::len_laws))]
#[cycle(len)]
fn lone_len(tokens: &Tokens, pattern: &Pattern) -> u64
    ensures { result ≡ capped (lone_len_of tokens.now pattern.now) }
{
    match pattern {
        Pattern::Token(class) => class_len(tokens, *class),
        Pattern::Limit { field, .. } => field_len(tokens, *field),
        Pattern::Bind(field) => field_len(tokens, *field),
        Pattern::Operand(_) => 0,
        Pattern::Label(_, inner) => lone_len(tokens, inner.get()),
        Pattern::Both(parts) => greatest_len(tokens, parts.as_slice()),
        Pattern::Either(parts) => greatest_len(tokens, parts.as_slice()),
        Pattern::Chain(parts) => len_sum(tokens, parts.as_slice()),
        Pattern::Loose(inner) => lone_len(tokens, inner.get()),
        Pattern::Apply { .. } => 0,
        Pattern::Empty => 0,
    }
}

#[cycle(len)]
fn len_sum(tokens: &Tokens, parts: &[Pattern]) -> u64
    ensures { result ≡ capped (sum (map (lone_len_of tokens.now) parts.now)) }
{
    let mut all = 0;
    for part in parts {
        all = capped_sum(all, lone_len(tokens, part));
    }
    all
}

#[cycle(len)]
fn greatest_len(tokens: &Tokens, parts: &[Pattern]) -> u64
    ensures { result ≡ capped (greatest (map (lone_len_of tokens.now) parts.now)) }
{
    let mut all = 0;
    for part in parts {
        all = all.max(lone_len(tokens, part));
    }
    all
}

fn class_len(tokens: &Tokens, class: ClassId) -> u64
    ensures value { result ≡ class_len_of tokens.now class }
    ensures small { result ≤ 31 }
{
    match tokens.class(class) {
        Some(class) => class.byte_count() as u64,
        None => 0,
    }
}

fn field_len(tokens: &Tokens, field: FieldId) -> u64
    ensures value { result ≡ token_len tokens.now field }
    ensures small { result ≤ 31 }
{
    match tokens.class_of(field) {
        Some(class) => class.byte_count() as u64,
        None => 0,
    }
}

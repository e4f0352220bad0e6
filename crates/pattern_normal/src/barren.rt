// Patterns without results.
ghost use Rattle.std.specs.Prelude.{◌≡◌, true, map, List};
ghost use Rattle.token_bits.specs.Tokens.{AreTokens};
ghost use Rattle.sled_model.specs.Admitted.{applied};
ghost use Rattle.sled_model.specs.Results.{results, operand_results, kind_results, choices_from};
ghost use Rattle.sled_model.specs.declared.pattern.Argument.{Argument};
ghost use Rattle.pattern_normal.specs.Surroundings.{around, inside, known_of, context_of};
ghost use Rattle.pattern_normal.specs.Barren.{HasNoResults, SomeHasNone, AllHaveNone};

use crate::context::BodyContext;
use crate::made::makes;
use crate::weights::{field_width, limit_weight};
use sled_model::{Constructor, OperandKind, Pattern, TypeId};
use sqlite_items::at as item_at;
use token_bits::Tokens;

/// Whether it is seen of the pattern that it has no results anywhere, since relations in it, or in what it names, hold of no value of
/// their fields.
#[cycle(barren)]
fn is_barren(near: &BodyContext<'_>, pattern: &Pattern) -> bool
    requires { AreTokens near.now.tokens.now }
    ensures { result ≡ true → HasNoResults (results (context_of (around near.now)) pattern.now) }
{
    match pattern {
        Pattern::Limit {
            field,
            relation,
            value,
        } => limit_weight(field_width(near.tokens, *field), *relation, *value) == 0,
        Pattern::Label(_, inner) => is_barren(near, inner.get()),
        Pattern::Both(parts) => any_barren(near, parts.as_slice()),
        Pattern::Either(parts) => all_barren(near, parts.as_slice()),
        Pattern::Chain(parts) => any_barren(near, parts.as_slice()),
        Pattern::Loose(inner) => is_barren(near, inner.get()),
        Pattern::Token(_) => false,
        Pattern::Bind(_) => false,
        Pattern::Operand(k) => is_barren_operand(near, *k),
        Pattern::Apply {
            constructor,
            arguments: _arguments,
        } => is_barren_number(near, constructor.0),
        Pattern::Empty => false,
    }
}

/// Whether it is seen of some part.
#[cycle(barren)]
pub(crate) fn any_barren(near: &BodyContext<'_>, parts: &[Pattern]) -> bool
    requires { AreTokens near.now.tokens.now }
    ensures { result ≡ true → SomeHasNone (map (results (context_of (around near.now))) parts.now) }
{
    for part in parts {
        if is_barren(near, part) {
            return true;
        }
    }
    false
}

/// Whether it is seen of each part.
#[cycle(barren)]
fn all_barren(near: &BodyContext<'_>, parts: &[Pattern]) -> bool
    requires { AreTokens near.now.tokens.now }
    ensures { result ≡ true → AllHaveNone (map (results (context_of (around near.now))) parts.now) }
{
    for part in parts {
        if !is_barren(near, part) {
            return false;
        }
    }
    true
}

/// Whether it is seen of operand number k.
#[cycle(barren)]
fn is_barren_operand(near: &BodyContext<'_>, k: u32) -> bool
    requires { AreTokens near.now.tokens.now }
    ensures { result ≡ true → HasNoResults (operand_results (context_of (around near.now)) k) }
{
    match item_at(near.kinds, k as usize) {
        Some(kind) => is_barren_kind(near, *kind),
        None => true,
    }
}

/// Whether it is seen of an operand of the kind.
#[cycle(barren)]
fn is_barren_kind(near: &BodyContext<'_>, kind: OperandKind) -> bool
    requires { AreTokens near.now.tokens.now }
    ensures { result ≡ true → HasNoResults (kind_results (known_of (around near.now)) kind) }
{
    match kind {
        OperandKind::Typed(made) => is_barren_type(near, made),
        OperandKind::Plain(_)
        | OperandKind::Extended(_)
        | OperandKind::Whole
        | OperandKind::Sliced => true,
    }
}

/// Whether it is seen of each constructor that makes the type.
#[cycle(barren)]
fn is_barren_type(near: &BodyContext<'_>, made: TypeId) -> bool
    requires { AreTokens near.now.tokens.now }
    ensures { result ≡ true → HasNoResults (choices_from 0 (known_of (around near.now)) made) }
{
    for (k, constructor) in near.constructors.iter().enumerate() {
        if !makes(constructor, made) {
            continue;
        }
        let before = &near.constructors[..k];
        if !is_barren_body(near.tokens, before, constructor) {
            return false;
        }
    }
    true
}

/// Whether it is seen of the body of a constructor that is declared after these.
#[cycle(barren)]
fn is_barren_body(tokens: &Tokens, before: &[Constructor], constructor: &Constructor) -> bool
    requires { AreTokens tokens.now }
    ensures { result ≡ true → HasNoResults (results (context_of (inside tokens.now before.now constructor.now)) constructor.now.body) }
{
    let near = BodyContext {
        tokens,
        constructors: before,
        kinds: constructor.operands.as_slice(),
    };
    is_barren(&near, &constructor.body)
}

/// Whether it is seen of an application of the constructor of this number.
#[cycle(barren)]
fn is_barren_number(near: &BodyContext<'_>, number: u32) -> bool
    requires { AreTokens near.now.tokens.now }
    ensures { result ≡ true → (arguments : List Argument) → HasNoResults (applied (known_of (around near.now)) number arguments) }
{
    let place = number as usize;
    match item_at(near.constructors, place) {
        None => true,
        Some(constructor) => {
            is_barren_body(near.tokens, &near.constructors[..place], constructor)
        }
    }
}

// Patterns multiplied out.
ghost use Rattle.std.specs.Prelude.{◌≡◌, ◌+◌, ◌*◌, ◌<◌, ◌≤◌, ◌^◌, [], length, map, max, sum, IfOk};
ghost use Rattle.token_bits.specs.Tokens.{AreTokens};
ghost use Rattle.sled_model.specs.Admitted.{applied};
ghost use Rattle.sled_model.specs.Measures.{product, greatest, operand_weight, operand_len, type_weight, type_len, application_weight, application_len};
ghost use Rattle.sled_model.specs.Results.{results, operand_results, choices_from, fold_meanings, both, either, chain};
ghost use Rattle.pattern_normal.specs.Surroundings.{around, inside, context_of, known_of, open_weight, open_weights, len_in, lens_of};
ghost use Rattle.pattern_normal.specs.Alternatives.{StandFor, StandForPattern, AreFollowed};

use crate::admitted::admitted_choices;
use crate::alternative::{Alternative, all_met, chosen, labelled, loosened, push_following};
use crate::barren::any_barren;
use crate::context::BodyContext;
use crate::leaves::{bind_alternatives, class_alternatives, empty_alternatives};
use crate::limits::limit_alternatives;
use crate::made::makes;
use sled_base::{MAX_MATCH, NoMemory};
use sled_model::{Argument, Constructor, ConstructorId, OperandKind, Pattern, TypeId};
use sqlite_items::{Items, at as item_at};
use std::alloc::Global;
use token_bits::Tokens;

/// The alternatives of a pattern at the offset `at`, in order.
#[cycle(expand)]
pub(crate) fn expand(
    alloc: Global,
    near: &BodyContext<'_>,
    pattern: &Pattern,
    at: usize,
) -> Result<Items<Alternative>, NoMemory>
    requires tokens { AreTokens near.now.tokens.now }
    requires few { length near.now.constructors.now ≤ 2 ^ 32 }
    requires at { at ≤ MAX_MATCH }
    ensures { IfOk result (StandForPattern (around near.now) pattern.now at) }
{
    match pattern {
        Pattern::Token(class) => class_alternatives(alloc, near.tokens, *class, at),
        Pattern::Limit {
            field,
            relation,
            value,
        } => limit_alternatives(alloc, near.tokens, *field, *relation, *value, at),
        Pattern::Bind(field) => bind_alternatives(alloc, near.tokens, *field, at),
        Pattern::Operand(k) => expand_operand(alloc, near, *k, at),
        Pattern::Label(label, inner) => {
            let alternatives = expand(alloc, near, inner.get(), at)?;
            labelled(alloc, *label, at as u8, alternatives.as_slice())
        }
        Pattern::Both(parts) => expand_both(alloc, near, parts.as_slice(), at),
        Pattern::Either(parts) => expand_either(alloc, near, parts.as_slice(), at),
        Pattern::Chain(parts) => expand_chain(alloc, near, parts.as_slice(), at),
        Pattern::Loose(inner) => {
            let alternatives = expand(alloc, near, inner.get(), at)?;
            loosened(alloc, alternatives.as_slice())
        }
        Pattern::Apply {
            constructor,
            arguments,
        } => expand_application(alloc, near, *constructor, arguments.as_slice(), at),
        Pattern::Empty => empty_alternatives(alloc, near.tokens, at),
    }
}

#[cycle(expand)]
fn expand_either(
    alloc: Global,
    near: &BodyContext<'_>,
    parts: &[Pattern],
    at: usize,
) -> Result<Items<Alternative>, NoMemory>
    requires tokens { AreTokens near.now.tokens.now }
    requires few { length near.now.constructors.now ≤ 2 ^ 32 }
    requires at { at ≤ MAX_MATCH }
    ensures { IfOk result (StandFor near.now.tokens.now (fold_meanings either (map (results (context_of (around near.now))) parts.now)) (sum (map (open_weight (around near.now)) parts.now)) (greatest (map (len_in (around near.now)) parts.now)) at) }
{
    let Some((first, rest)) = parts.split_first() else {
        return Ok(Items::new(alloc));
    };
    let mut alternatives = expand(alloc, near, first, at)?;
    for part in rest {
        alternatives.append(expand(alloc, near, part, at)?)?;
    }
    Ok(alternatives)
}

/// A part without results is looked for first, since the others may have any weight.
#[cycle(expand)]
fn expand_both(
    alloc: Global,
    near: &BodyContext<'_>,
    parts: &[Pattern],
    at: usize,
) -> Result<Items<Alternative>, NoMemory>
    requires tokens { AreTokens near.now.tokens.now }
    requires few { length near.now.constructors.now ≤ 2 ^ 32 }
    requires at { at ≤ MAX_MATCH }
    ensures { IfOk result (StandFor near.now.tokens.now (fold_meanings both (map (results (context_of (around near.now))) parts.now)) (product (map (open_weight (around near.now)) parts.now)) (greatest (map (len_in (around near.now)) parts.now)) at) }
{
    if any_barren(near, parts) {
        return Ok(Items::new(alloc));
    }
    let Some((first, rest)) = parts.split_first() else {
        return Ok(Items::new(alloc));
    };
    let mut alternatives = expand(alloc, near, first, at)?;
    for part in rest {
        let seconds = expand(alloc, near, part, at)?;
        alternatives = all_met(alloc, alternatives.as_slice(), seconds.as_slice())?;
    }
    Ok(alternatives)
}

/// As with `expand_both`, a part without results is looked for first.
#[cycle(expand)]
fn expand_chain(
    alloc: Global,
    near: &BodyContext<'_>,
    parts: &[Pattern],
    at: usize,
) -> Result<Items<Alternative>, NoMemory>
    requires tokens { AreTokens near.now.tokens.now }
    requires few { length near.now.constructors.now ≤ 2 ^ 32 }
    requires at { at ≤ MAX_MATCH }
    ensures { IfOk result (StandFor near.now.tokens.now (fold_meanings chain (map (results (context_of (around near.now))) parts.now)) (product (map (open_weight (around near.now)) parts.now)) (sum (map (len_in (around near.now)) parts.now)) at) }
{
    if any_barren(near, parts) {
        return Ok(Items::new(alloc));
    }
    let Some((first, rest)) = parts.split_first() else {
        return Ok(Items::new(alloc));
    };
    let mut alternatives = expand(alloc, near, first, at)?;
    for part in rest {
        alternatives = follow_all(alloc, near, alternatives.as_slice(), part)?;
    }
    Ok(alternatives)
}

/// Each of the firsts with each alternative of the part where it ends.
#[cycle(expand)]
fn follow_all(
    alloc: Global,
    near: &BodyContext<'_>,
    firsts: &[Alternative],
    part: &Pattern,
) -> Result<Items<Alternative>, NoMemory>
    requires tokens { AreTokens near.now.tokens.now }
    requires few { length near.now.constructors.now ≤ 2 ^ 32 }
    ensures { IfOk result (AreFollowed (around near.now) part.now firsts.now) }
{
    let mut pairs = Items::new(alloc);
    for first in firsts {
        let seconds = expand(alloc, near, part, first.bits.len as usize)?;
        push_following(alloc, &mut pairs, first, seconds.as_slice())?;
    }
    Ok(pairs)
}

/// The alternatives of operand number k of the body, which only a typed one has.
#[cycle(expand)]
fn expand_operand(
    alloc: Global,
    near: &BodyContext<'_>,
    k: u32,
    at: usize,
) -> Result<Items<Alternative>, NoMemory>
    requires tokens { AreTokens near.now.tokens.now }
    requires few { length near.now.constructors.now ≤ 2 ^ 32 }
    requires at { at ≤ MAX_MATCH }
    ensures { IfOk result (StandFor near.now.tokens.now (operand_results (context_of (around near.now)) k) (operand_weight (open_weights near.now.tokens.now near.now.constructors.now) near.now.kinds.now k) (operand_len (lens_of near.now.tokens.now near.now.constructors.now) near.now.kinds.now k) at) }
{
    match item_at(near.kinds, k as usize) {
        Some(OperandKind::Typed(made)) => expand_type(alloc, near, *made, at),
        _ => Ok(Items::new(alloc)),
    }
}

/// The alternatives of the bodies that make the type, in order, each as the choice of its constructor.
#[cycle(expand)]
fn expand_type(
    alloc: Global,
    near: &BodyContext<'_>,
    made: TypeId,
    at: usize,
) -> Result<Items<Alternative>, NoMemory>
    requires tokens { AreTokens near.now.tokens.now }
    requires few { length near.now.constructors.now ≤ 2 ^ 32 }
    requires at { at ≤ MAX_MATCH }
    ensures { IfOk result (StandFor near.now.tokens.now (choices_from 0 (known_of (around near.now)) made) (type_weight (open_weights near.now.tokens.now near.now.constructors.now) made) (type_len (lens_of near.now.tokens.now near.now.constructors.now) made) at) }
{
    let mut alternatives = Items::new(alloc);
    for (k, constructor) in near.constructors.iter().enumerate() {
        if !makes(constructor, made) {
            continue;
        }
        let before = &near.constructors[..k];
        let bodies = expand_body(alloc, near.tokens, before, constructor, at)?;
        alternatives.append(chosen(alloc, k as u32, &[], bodies.as_slice())?)?;
    }
    Ok(alternatives)
}

/// The alternatives of the body of a constructor that is declared after these.
#[cycle(expand)]
fn expand_body(
    alloc: Global,
    tokens: &Tokens,
    before: &[Constructor],
    constructor: &Constructor,
    at: usize,
) -> Result<Items<Alternative>, NoMemory>
    requires tokens { AreTokens tokens.now }
    requires few { length before.now ≤ 2 ^ 32 }
    requires at { at ≤ MAX_MATCH }
    ensures { IfOk result (StandForPattern (inside tokens.now before.now constructor.now) constructor.now.body at) }
{
    let near = BodyContext {
        tokens,
        constructors: before,
        kinds: constructor.operands.as_slice(),
    };
    expand(alloc, &near, &constructor.body, at)
}

/// The alternatives of the constructor's body that the arguments admit, each as the choice of the constructor.
#[cycle(expand)]
fn expand_application(
    alloc: Global,
    near: &BodyContext<'_>,
    k: ConstructorId,
    arguments: &[Argument],
    at: usize,
) -> Result<Items<Alternative>, NoMemory>
    requires tokens { AreTokens near.now.tokens.now }
    requires few { length near.now.constructors.now ≤ 2 ^ 32 }
    requires at { at ≤ MAX_MATCH }
    ensures { IfOk result (StandFor near.now.tokens.now (applied (known_of (around near.now)) k.0 arguments.now) (application_weight (open_weights near.now.tokens.now near.now.constructors.now) k.0 []) (application_len (lens_of near.now.tokens.now near.now.constructors.now) k.0) at) }
{
    let number = k.0 as usize;
    match item_at(near.constructors, number) {
        None => Ok(Items::new(alloc)),
        Some(constructor) => {
            let before = &near.constructors[..number];
            let bodies = expand_body(alloc, near.tokens, before, constructor, at)?;
            admitted_choices(alloc, near, k, constructor, arguments, bodies.as_slice())
        }
    }
}

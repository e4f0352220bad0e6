// Weights of patterns and of constructors.
ghost use Rattle.std.specs.Prelude.{◌≡◌, ◌<◌, ◌≤◌, ◌*◌, ◌+◌, [], map, sum};
ghost use Rattle.token_bits.specs.Tokens.{AreTokens};
ghost use Rattle.sled_model.specs.Measures.{capped, each_from, kind_weight as kind_weight_of, limit_weight as limit_weight_of, operand_weight as kept_weight, product, type_weight as type_weight_of, weight as weight_of, weighed, width_at};
ghost use Rattle.sled_model.specs.Leaves.{IsNoApplication, AllLeaves};
ghost use Rattle.pattern_normal.specs.Operands.{ApplyNothing, operand_weights};

use crate::caps::{CAP, capped_product, capped_sum};
use crate::made::makes;
use sled_model::{Constructor, OperandKind, Pattern, Relation, TypeId};
use token_bits::{FieldId, Tokens};

/// The weight of a pattern. Operand k has the weight `given[k]`, or past these that of the kind `kinds[k]`, whose type the
/// constructors `before` make. An application has none.
#[tactic(auto, using(crate::proofs::Measured::weight_laws))]
#[cycle(weight)]
pub(crate) fn weight_at(
    tokens: &Tokens,
    given: &[u64],
    before: &[Constructor],
    kinds: &[OperandKind],
    pattern: &Pattern,
) -> u64
    requires tokens { AreTokens tokens.now }
    requires plain { ApplyNothing before.now }
    ensures { result ≡ capped (weight_of tokens.now [] (operand_weights tokens.now given.now before.now kinds.now) pattern.now) }
{
    match pattern {
        Pattern::Token(_) => 1,
        Pattern::Limit {
            field,
            relation,
            value,
        } => limit_weight(field_width(tokens, *field), *relation, *value),
        Pattern::Bind(_) => 1,
        Pattern::Operand(operand) => operand_weight(tokens, given, before, kinds, *operand),
        Pattern::Label(_, inner) => weight_at(tokens, given, before, kinds, inner.get()),
        Pattern::Both(parts) => weight_product(tokens, given, before, kinds, parts.as_slice()),
        Pattern::Either(parts) => weight_sum(tokens, given, before, kinds, parts.as_slice()),
        Pattern::Chain(parts) => weight_product(tokens, given, before, kinds, parts.as_slice()),
        Pattern::Loose(inner) => weight_at(tokens, given, before, kinds, inner.get()),
        Pattern::Apply { .. } => 0,
        Pattern::Empty => 1,
    }
}

#[cycle(weight)]
fn weight_product(
    tokens: &Tokens,
    given: &[u64],
    before: &[Constructor],
    kinds: &[OperandKind],
    parts: &[Pattern],
) -> u64
    requires tokens { AreTokens tokens.now }
    requires plain { ApplyNothing before.now }
    ensures { result ≡ capped (product (map (weight_of tokens.now [] (operand_weights tokens.now given.now before.now kinds.now)) parts.now)) }
{
    let mut all = 1;
    for part in parts {
        all = capped_product(all, weight_at(tokens, given, before, kinds, part));
    }
    all
}

#[cycle(weight)]
fn weight_sum(
    tokens: &Tokens,
    given: &[u64],
    before: &[Constructor],
    kinds: &[OperandKind],
    parts: &[Pattern],
) -> u64
    requires tokens { AreTokens tokens.now }
    requires plain { ApplyNothing before.now }
    ensures { result ≡ capped (sum (map (weight_of tokens.now [] (operand_weights tokens.now given.now before.now kinds.now)) parts.now)) }
{
    let mut all = 0;
    for part in parts {
        all = capped_sum(all, weight_at(tokens, given, before, kinds, part));
    }
    all
}

#[cycle(weight)]
fn operand_weight(
    tokens: &Tokens,
    given: &[u64],
    before: &[Constructor],
    kinds: &[OperandKind],
    operand: u32,
) -> u64
    requires tokens { AreTokens tokens.now }
    requires plain { ApplyNothing before.now }
    ensures { result ≡ capped (operand_weights tokens.now given.now before.now kinds.now operand) }
{
    match given.get(operand as usize) {
        Some(weight) => (*weight).min(CAP),
        None => match kinds.get(operand as usize) {
            Some(kind) => kind_weight(tokens, before, *kind),
            None => 0,
        },
    }
}

#[cycle(weight)]
fn kind_weight(tokens: &Tokens, before: &[Constructor], kind: OperandKind) -> u64
    requires tokens { AreTokens tokens.now }
    requires plain { ApplyNothing before.now }
    ensures { result ≡ capped (kind_weight_of (each_from (weighed tokens.now) [] before.now) kind) }
{
    match kind {
        OperandKind::Typed(made) => type_weight(tokens, before, made),
        OperandKind::Plain(_)
        | OperandKind::Extended(_)
        | OperandKind::Whole
        | OperandKind::Sliced => 0,
    }
}

/// The weights of the constructors that make the type, each over those before it, together.
#[cycle(weight)]
fn type_weight(tokens: &Tokens, before: &[Constructor], made: TypeId) -> u64
    requires tokens { AreTokens tokens.now }
    requires plain { ApplyNothing before.now }
    ensures { result ≡ capped (type_weight_of (each_from (weighed tokens.now) [] before.now) made) }
{
    let mut all = 0;
    for (k, constructor) in before.iter().enumerate() {
        if !makes(constructor, made) {
            continue;
        }
        all = capped_sum(all, constructor_weight(tokens, &before[..k], constructor));
    }
    all
}

/// The weight of the constructor's body, over the constructors before it.
#[cycle(weight)]
pub(crate) fn constructor_weight(
    tokens: &Tokens,
    before: &[Constructor],
    constructor: &Constructor,
) -> u64
    requires tokens { AreTokens tokens.now }
    requires plain { ApplyNothing before.now }
    requires body { AllLeaves IsNoApplication constructor.now.body }
    ensures { result ≡ capped (weight_of tokens.now (each_from (weighed tokens.now) [] before.now) (kept_weight (each_from (weighed tokens.now) [] before.now) constructor.now.operands) constructor.now.body) }
{
    weight_at(
        tokens,
        &[],
        before,
        constructor.operands.as_slice(),
        &constructor.body,
    )
}

pub(crate) fn limit_weight(width: u8, relation: Relation, limit: u32) -> u64
    requires { width ≤ 32 }
    ensures value { result ≡ limit_weight_of width relation limit }
    ensures small { result ≤ 64 }
{
    let limit = u64::from(limit);
    let count = 1u64 << width;
    match relation {
        Relation::Equal => 1,
        Relation::Differs => u64::from(width),
        Relation::Below => u64::from(limit.count_ones()),
        Relation::AtMost => u64::from((limit + 1).count_ones()),
        Relation::Above => u64::from((count - 1).saturating_sub(limit).count_ones()),
        Relation::AtLeast => u64::from(count.saturating_sub(limit).count_ones()),
    }
}

/// How many bits the field has, or 0 where there is no such field.
pub(crate) fn field_width(tokens: &Tokens, field: FieldId) -> u8
    requires { AreTokens tokens.now }
    ensures value { result ≡ width_at tokens.now field }
    ensures small { result ≤ 32 }
{
    match tokens.field(field) {
        Some(field) => field.hi - field.lo + 1,
        None => 0,
    }
}

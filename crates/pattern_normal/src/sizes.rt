// Sizes of patterns and of constructors.
ghost use Rattle.std.specs.Prelude.{◌≡◌, ◌+◌, [], max, map, sum, sum_by};
ghost use Rattle.sled_model.specs.Measures.{capped, each_from, greatest, kind_size as kind_size_of, number_size as number_size_of, operand_size as kept_size, size as size_of, sized, type_size as type_size_of};
ghost use Rattle.sled_model.specs.Leaves.{IsNoApplication, AllLeaves};
ghost use Rattle.pattern_normal.specs.Operands.{ApplyNothing, operand_sizes};

use crate::caps::{CAP, capped_sum};
use crate::made::makes;
use sled_model::{Constructor, OperandKind, Pattern, TypeId};

/// The size of a pattern. Operand k has the size `given[k]`, or past these that of the kind `kinds[k]`, whose type the constructors
/// `before` make. An application has none.
#[tactic(auto, using(crate::proofs::Measured::size_laws))]
#[cycle(size)]
pub(crate) fn size_at(
    given: &[u64],
    before: &[Constructor],
    kinds: &[OperandKind],
    pattern: &Pattern,
) -> u64
    requires { ApplyNothing before.now }
    ensures { result ≡ capped (size_of [] (operand_sizes given.now before.now kinds.now) pattern.now) }
{
    match pattern {
        Pattern::Token(_) => 0,
        Pattern::Limit { .. } => 0,
        Pattern::Bind(_) => 1,
        Pattern::Operand(operand) => operand_size(given, before, kinds, *operand),
        Pattern::Label(_, inner) => capped_sum(1, size_at(given, before, kinds, inner.get())),
        Pattern::Both(parts) => size_sum(given, before, kinds, parts.as_slice()),
        Pattern::Either(parts) => greatest_size(given, before, kinds, parts.as_slice()),
        Pattern::Chain(parts) => size_sum(given, before, kinds, parts.as_slice()),
        Pattern::Loose(inner) => size_at(given, before, kinds, inner.get()),
        Pattern::Apply { .. } => 0,
        Pattern::Empty => 0,
    }
}

#[cycle(size)]
fn size_sum(given: &[u64], before: &[Constructor], kinds: &[OperandKind], parts: &[Pattern]) -> u64
    requires { ApplyNothing before.now }
    ensures { result ≡ capped (sum (map (size_of [] (operand_sizes given.now before.now kinds.now)) parts.now)) }
{
    let mut all = 0;
    for part in parts {
        all = capped_sum(all, size_at(given, before, kinds, part));
    }
    all
}

#[cycle(size)]
fn greatest_size(
    given: &[u64],
    before: &[Constructor],
    kinds: &[OperandKind],
    parts: &[Pattern],
) -> u64
    requires { ApplyNothing before.now }
    ensures { result ≡ capped (greatest (map (size_of [] (operand_sizes given.now before.now kinds.now)) parts.now)) }
{
    let mut all = 0;
    for part in parts {
        all = all.max(size_at(given, before, kinds, part));
    }
    all
}

#[cycle(size)]
fn operand_size(given: &[u64], before: &[Constructor], kinds: &[OperandKind], operand: u32) -> u64
    requires { ApplyNothing before.now }
    ensures { result ≡ capped (operand_sizes given.now before.now kinds.now operand) }
{
    match given.get(operand as usize) {
        Some(size) => (*size).min(CAP),
        None => match kinds.get(operand as usize) {
            Some(kind) => kind_size(before, *kind),
            None => 0,
        },
    }
}

#[cycle(size)]
fn kind_size(before: &[Constructor], kind: OperandKind) -> u64
    requires { ApplyNothing before.now }
    ensures { result ≡ capped (kind_size_of (each_from sized [] before.now) kind) }
{
    match kind {
        OperandKind::Typed(made) => type_size(before, made),
        OperandKind::Plain(_)
        | OperandKind::Extended(_)
        | OperandKind::Whole
        | OperandKind::Sliced => 0,
    }
}

/// The greatest size of the constructors that make the type, each over those before it.
#[cycle(size)]
fn type_size(before: &[Constructor], made: TypeId) -> u64
    requires { ApplyNothing before.now }
    ensures { result ≡ capped (type_size_of (each_from sized [] before.now) made) }
{
    let mut all = 0;
    for (k, constructor) in before.iter().enumerate() {
        if !makes(constructor, made) {
            continue;
        }
        all = all.max(constructor_size(&before[..k], constructor));
    }
    all
}

/// The size of the constructor, over the constructors before it.
#[cycle(size)]
pub(crate) fn constructor_size(before: &[Constructor], constructor: &Constructor) -> u64
    requires plain { ApplyNothing before.now }
    requires body { AllLeaves IsNoApplication constructor.now.body }
    ensures { result ≡ capped (1 + sum_by number_size_of constructor.now.operands + size_of (each_from sized [] before.now) (kept_size (each_from sized [] before.now) constructor.now.operands) constructor.now.body) }
{
    let kinds = constructor.operands.as_slice();
    let body = size_at(&[], before, kinds, &constructor.body);
    capped_sum(capped_sum(1, number_sizes(kinds)), body)
}

/// How many of the operands are numbers that no field holds whole.
fn number_sizes(kinds: &[OperandKind]) -> u64
    ensures { result ≡ capped (sum_by number_size_of kinds.now) }
{
    let mut all = 0;
    for kind in kinds {
        all = capped_sum(all, number_size(*kind));
    }
    all
}

fn number_size(kind: OperandKind) -> u64
    ensures { result ≡ number_size_of kind }
{
    match kind {
        OperandKind::Whole | OperandKind::Sliced => 1,
        OperandKind::Plain(_) | OperandKind::Extended(_) | OperandKind::Typed(_) => 0,
    }
}

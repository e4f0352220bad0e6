// What a constructor comes to.
ghost use Rattle.std.specs.Prelude.{◌≡◌, ◌+◌, [], map, get_or, sum_by, IfOk};
ghost use Rattle.token_bits.specs.Tokens.{AreTokens};
ghost use Rattle.sled_model.specs.Measures.{capped, number_size as number_size_of, size as size_of, weight as weight_of};
ghost use Rattle.pattern_shapes.specs.Forms.{operand_context, IsFormOf};
ghost use Rattle.type_tables.specs.Types.{weight_in, size_in, shapes_in};

use crate::TypeEntry;
use crate::types::{CAP, operand_shapes, operand_sizes, operand_weights};
use pattern_normal::{size_over, weight_over};
use pattern_shapes::{Form, form_of};
use sled_base::NoMemory;
use sled_model::{OperandKind, Pattern};
use std::alloc::Global;
use token_bits::Tokens;

/// What a constructor comes to. What is above 1,000,000 counts as 1,000,000.
#[derive(Debug, Drop)]
pub struct Measures {
    /// The form of its body.
    pub form: Form,
    /// The weight of its body.
    pub weight: u64,
    /// Its size: 1, its whole numbers, sliced or not, and the size of its body.
    pub size: u64,
}

fn capped_sum(a: u64, b: u64) -> u64
    ensures { result ≡ capped (a + b) }
{
    a.saturating_add(b).min(CAP)
}

fn number_size(kind: OperandKind) -> u64
    ensures { result ≡ number_size_of kind }
{
    match kind {
        OperandKind::Whole | OperandKind::Sliced => 1,
        OperandKind::Plain(_) | OperandKind::Extended(_) | OperandKind::Typed(_) => 0,
    }
}

/// How many of the operands are whole numbers.
fn number_sizes(kinds: &[OperandKind]) -> u64
    ensures { result ≡ capped (sum_by number_size_of kinds.now) }
{
    let mut all = 0;
    for kind in kinds {
        all = capped_sum(all, number_size(*kind));
    }
    all
}

fn body_size(
    alloc: Global,
    types: &[TypeEntry],
    kinds: &[OperandKind],
    body: &Pattern,
) -> Result<u64, NoMemory>
    ensures { IfOk result (λ size. size ≡ capped (1 + sum_by number_size_of kinds.now + size_of [] (λ k. get_or (map (size_in types.now) kinds.now) k 0) body.now)) }
{
    let sizes = operand_sizes(alloc, types, kinds)?;
    let body = size_over(sizes.as_slice(), body);
    Ok(capped_sum(capped_sum(1, number_sizes(kinds)), body))
}

/// The measures of a constructor with operands of these kinds and this body, over types of which this is known.
pub(crate) fn measures_over(
    alloc: Global,
    types: &[TypeEntry],
    tokens: &Tokens,
    kinds: &[OperandKind],
    body: &Pattern,
) -> Result<Measures, NoMemory>
    requires { AreTokens tokens.now }
    ensures form { IfOk result (λ m. IsFormOf (operand_context tokens.now (map (shapes_in types.now) kinds.now)) body.now m.form) }
    ensures weight { IfOk result (λ m. m.weight ≡ capped (weight_of tokens.now [] (λ k. get_or (map (weight_in types.now) kinds.now) k 0) body.now)) }
    ensures size { IfOk result (λ m. m.size ≡ capped (1 + sum_by number_size_of kinds.now + size_of [] (λ k. get_or (map (size_in types.now) kinds.now) k 0) body.now)) }
{
    let shapes = operand_shapes(alloc, types, kinds)?;
    let form = form_of(alloc, tokens, shapes.as_slice(), body)?;
    let weights = operand_weights(alloc, types, kinds)?;
    let weight = weight_over(tokens, weights.as_slice(), body);
    let size = body_size(alloc, types, kinds, body)?;
    Ok(Measures { form, weight, size })
}

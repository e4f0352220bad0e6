// How much a pattern holds, and how much a constructor.
ghost use Rattle.std.specs.Prelude.{◌≡◌, [], get_or};
ghost use Rattle.token_bits.specs.Tokens.{AreTokens};
ghost use Rattle.sled_model.specs.Measures.{capped, constructor_size as constructor_size_of, constructor_weight as constructor_weight_of, pattern_size, pattern_weight, size as size_of, weight as weight_of};
ghost use Rattle.sled_model.specs.Leaves.{IsNoApplication, AllLeaves, NamesNoConstructor};
ghost use Rattle.pattern_normal.specs.Operands.{ApplyNothing};

use crate::sizes::{constructor_size, size_at};
use crate::weights::{constructor_weight, weight_at};
use sled_model::{Constructor, Pattern, Spec};
use token_bits::Tokens;

/// The weight of the pattern: at most so many cases stand for it. A relation of a field of w bits to a limit has 1 for `=`,
/// w for `!=`, and else as many as there are one bits in: the limit for `<`, the limit plus 1 for `<=`, 2^w - 1 minus the
/// limit for `>`, and 2^w minus the limit for `>=`. A class, a bare field and the empty pattern have 1. `|` adds, `&` and `;`
/// multiply, and `...` and a label change nothing. What is above 1,000,000 counts as 1,000,000.
pub fn weight(spec: &Spec, pattern: &Pattern) -> u64
    requires tokens { AreTokens spec.now.tokens }
    requires plain { AllLeaves NamesNoConstructor pattern.now }
    ensures { result ≡ capped (pattern_weight spec.now pattern.now) }
{
    weight_over(&spec.tokens, &[], pattern)
}

/// The weight of a pattern as `weight` has it, where no constructor is known: operand k has the weight `operands[k]`, or 0 past
/// these, and an application has none.
pub fn weight_over(tokens: &Tokens, operands: &[u64], pattern: &Pattern) -> u64
    requires { AreTokens tokens.now }
    ensures { result ≡ capped (weight_of tokens.now [] (λ k. get_or operands.now k 0) pattern.now) }
{
    weight_at(tokens, operands, &[], &[], pattern)
}

/// The weight of the constructor's body. An operand of a type has the weights of the bodies that make the type together, each over
/// the constructors before it; other operands have none. What is above 1,000,000 counts as 1,000,000.
pub fn body_weight(spec: &Spec, constructor: &Constructor) -> u64
    requires tokens { AreTokens spec.now.tokens }
    requires plain { ApplyNothing spec.now.constructors }
    requires body { AllLeaves IsNoApplication constructor.now.body }
    ensures { result ≡ capped (constructor_weight_of spec.now constructor.now) }
{
    constructor_weight(&spec.tokens, spec.constructors.as_slice(), constructor)
}

/// The size of the pattern: a bare field and a label count 1, `&` and `;` add, `|` takes the greatest of its sides, and
/// everything else counts 0. What is above 1,000,000 counts as 1,000,000.
pub fn size(spec: &Spec, pattern: &Pattern) -> u64
    requires plain { AllLeaves NamesNoConstructor pattern.now }
    ensures { result ≡ capped (pattern_size spec.now pattern.now) }
{
    size_over(&[], pattern)
}

/// The size of a pattern as `size` has it, where no constructor is known: operand k has the size `operands[k]`, or 0 past these,
/// and an application has none.
pub fn size_over(operands: &[u64], pattern: &Pattern) -> u64
    ensures { result ≡ capped (size_of [] (λ k. get_or operands.now k 0) pattern.now) }
{
    size_at(operands, &[], &[], pattern)
}

/// The size of the constructor: 1, its whole numbers, sliced or not, and the size of its body. An operand of a type has the greatest
/// size of the constructors that make the type, each over those before it; other operands have none. What is above 1,000,000 counts as
/// 1,000,000.
pub fn body_size(spec: &Spec, constructor: &Constructor) -> u64
    requires plain { ApplyNothing spec.now.constructors }
    requires body { AllLeaves IsNoApplication constructor.now.body }
    ensures { result ≡ capped (constructor_size_of spec.now constructor.now) }
{
    constructor_size(spec.constructors.as_slice(), constructor)
}

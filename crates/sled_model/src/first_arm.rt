// The first arm of a statement that has a result.
ghost use Rattle.std.specs.Prelude.{◌≡◌, ◌<◌, ◌≤◌, ◌^◌, IfOk, length};
ghost use Rattle.token_bits.specs.Tokens.{AreTokens};
ghost use Rattle.sled_model.specs.First.{first as first_of};

use crate::bodies::body_table;
use crate::context::PatternContext;
use crate::plain::results_among;
use crate::{Match, Spec, Statement};
use sled_base::NoMemory;
use std::alloc::Global;

/// The number of the first arm that has a result on the window, and its first result. The window has fewer than 256 bytes, so that each
/// offset fits in an entry.
pub fn first(
    alloc: Global,
    spec: &Spec,
    statement: &Statement,
    window: &[u8],
) -> Result<Option<(usize, Match)>, NoMemory>
    requires sound { AreTokens spec.now.tokens }
    requires few { length spec.now.constructors ≤ 2 ^ 32 }
    requires short { length window.now < 256 }
    ensures { IfOk result (λ found. found ≡ first_of spec.now statement.now window.now) }
{
    let bodies = body_table(alloc, &spec.tokens, spec.constructors.as_slice(), window)?;
    let near = PatternContext {
        tokens: &spec.tokens,
        operands: &[],
        constructors: spec.constructors.as_slice(),
        bodies: bodies.as_slice(),
        window,
    };
    for (k, arm) in statement.arms.as_slice().iter().enumerate() {
        let mut found = results_among(alloc, &near, &arm.pattern, 0)?;
        if !found.is_empty() {
            return Ok(Some((k, found.remove(0))));
        }
    }
    Ok(None)
}

// The results of patterns over a description.
ghost use Rattle.std.specs.Prelude.{◌≡◌, ◌^◌, ◌<◌, ◌≤◌, ◌+◌, [], length, All, IfOk};
ghost use Rattle.token_bits.specs.Tokens.{AreTokens};
ghost use Rattle.sled_model.specs.Results.{results as results_of, known_from};
ghost use Rattle.sled_model.specs.PatternContexts.{row_of, table_of, context_in, IsPatternContext};

use crate::context::PatternContext;
use crate::plain::results_among;
use crate::{Constructor, Match, MatchList, OperandKind, Pattern, Spec};
use sled_base::NoMemory;
use sqlite_items::Items;
use std::alloc::Global;
use token_bits::Tokens;

/// The results of a pattern at each offset of the window, and at its end.
fn body_row(
    alloc: Global,
    near: &PatternContext<'_>,
    body: &Pattern,
) -> Result<Items<MatchList>, NoMemory>
    requires { IsPatternContext near.now }
    ensures { IfOk result (λ row. row ≡ row_of near.now.window.now (results_of (context_in near.now) body.now)) }
{
    let mut row = Items::new(alloc);
    for at in 0..near.window.len() + 1 {
        row.push(results_among(alloc, near, body, at)?)?;
    }
    Ok(row)
}

/// The results of each constructor's body at each offset of the window, where a body means what it does over the constructors before.
pub(crate) fn body_table(
    alloc: Global,
    tokens: &Tokens,
    constructors: &[Constructor],
    window: &[u8],
) -> Result<Items<Items<MatchList>>, NoMemory>
    requires tokens { AreTokens tokens.now }
    requires few { length constructors.now ≤ 2 ^ 32 }
    requires window { length window.now < 256 }
    ensures { IfOk result (λ table. table ≡ table_of window.now (known_from tokens.now [] constructors.now)) }
{
    let mut table = Items::new(alloc);
    for (k, constructor) in constructors.iter().enumerate() {
        let near = PatternContext {
            tokens,
            operands: constructor.operands.as_slice(),
            constructors: &constructors[..k],
            bodies: table.as_slice(),
            window,
        };
        let row = body_row(alloc, &near, &constructor.body)?;
        table.push(row)?;
    }
    Ok(table)
}

/// The results of a pattern at the offset `at`, in order, among the constructors of the description, where it stands in a body with
/// operands of these kinds. In an arm there are none. The window has fewer than 256 bytes, so that each offset fits in an entry.
pub fn results(
    alloc: Global,
    spec: &Spec,
    kinds: &[OperandKind],
    pattern: &Pattern,
    window: &[u8],
    at: usize,
) -> Result<Items<Match>, NoMemory>
    requires tokens { AreTokens spec.now.tokens }
    requires few { length spec.now.constructors ≤ 2 ^ 32 }
    requires window { length window.now < 256 }
    requires at { at ≤ length window.now }
    ensures value { IfOk result (λ found. found ≡ results_of (record { tokens = spec.now.tokens; operands = kinds.now; known = known_from spec.now.tokens [] spec.now.constructors }) pattern.now window.now at) }
    ensures within { IfOk result (All (λ a. at + a.len ≤ length window.now)) }
{
    let bodies = body_table(alloc, &spec.tokens, spec.constructors.as_slice(), window)?;
    let near = PatternContext {
        tokens: &spec.tokens,
        operands: kinds,
        constructors: spec.constructors.as_slice(),
        bodies: bodies.as_slice(),
        window,
    };
    results_among(alloc, &near, pattern, at)
}

// Cases of patterns.
ghost use Rattle.std.specs.Prelude.{◌≡◌, ◌≤◌, ◌<◌, ◌^◌, ℕ, List, [], length, map, All, IfOk};
ghost use Rattle.token_bits.specs.Tokens.{AreTokens};
ghost use Rattle.sled_model.specs.Results.{results, arm_context};
ghost use Rattle.sled_model.specs.Measures.{pattern_weight, pattern_len};
ghost use Rattle.pattern_normal.specs.Alternatives.{IsBytes};
ghost use Rattle.pattern_normal.specs.Arms.{NamesFew, HasWholeWeight, open_pattern_weight};
ghost use Rattle.pattern_normal.specs.Cases.{told_by_met, binds_and_len, case_of};

use crate::Skeleton;
use crate::alternative::Alternative;
use crate::context::BodyContext;
use crate::expand::expand;
use crate::skeleton::copy_spots;
use bit_cases::ByteCase;
use sled_base::{MAX_MATCH, NoMemory};
use sled_model::{Pattern, Spec};
use sqlite_items::Items;
use std::alloc::Global;

/// A result of a pattern: a condition on the bytes of a window, and what a window that meets it binds. The result is as long
/// as the condition.
#[derive(Drop)]
pub struct Case {
    pub bits: ByteCase,
    pub bind: Skeleton,
}

pub type CaseList = Items<Case>;

/// The cases of a pattern that stands in an arm, and of which no alternative has more than 32 bytes. Those that a window meets, read
/// from it, are the results of the pattern at the window's first byte, in order. There are at most as many as the pattern's weight,
/// where an application counts as much as its constructor. A number of 32 bits names each constructor of the description, or the
/// pattern names none.
pub fn cases_of(alloc: Global, spec: &Spec, pattern: &Pattern) -> Result<CaseList, NoMemory>
    requires tokens { AreTokens spec.now.tokens }
    requires few { NamesFew spec.now pattern.now }
    requires fits { pattern_len spec.now pattern.now ≤ MAX_MATCH }
    ensures results { IfOk result (λ cases. (window : List ℕ) → IsBytes window
        → told_by_met spec.now.tokens window cases ≡ map binds_and_len (results (arm_context spec.now) pattern.now window 0)) }
    ensures lens { IfOk result (All (λ case. case.bits.len ≤ pattern_len spec.now pattern.now)) }
    ensures count { IfOk result (λ cases. HasWholeWeight spec.now pattern.now → length cases ≤ pattern_weight spec.now pattern.now) }
    ensures within { IfOk result (λ cases. length cases ≤ open_pattern_weight spec.now pattern.now) }
{
    let near = arm_surroundings(spec);
    let alternatives = expand(alloc, &near, pattern, 0)?;
    all_cases(alloc, alternatives.as_slice())
}

/// What an arm's pattern stands among: the constructors, where a number of 32 bits names each.
fn arm_surroundings(spec: &Spec) -> BodyContext<'_>
    ensures tokens { result.tokens.now ≡ spec.now.tokens }
    ensures kinds { result.kinds.now ≡ [] }
    ensures few { length result.constructors.now ≤ 2 ^ 32 }
    ensures all { length spec.now.constructors ≤ 2 ^ 32 → result.constructors.now ≡ spec.now.constructors }
{
    let all = spec.constructors.as_slice();
    let many = all.len() as u64 > 1u64 << 32;
    BodyContext {
        tokens: &spec.tokens,
        constructors: if many { &[] } else { all },
        kinds: &[],
    }
}

fn all_cases(alloc: Global, alternatives: &[Alternative]) -> Result<CaseList, NoMemory>
    ensures { IfOk result (λ cases. cases ≡ map case_of alternatives.now) }
{
    let mut cases = Items::new(alloc);
    for alternative in alternatives {
        cases.push(Case {
            bits: alternative.bits,
            bind: Skeleton {
                entries: copy_spots(alloc, alternative.spots.as_slice())?,
            },
        })?;
    }
    Ok(cases)
}

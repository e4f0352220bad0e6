// Alternatives of patterns without parts.
ghost use Rattle.std.specs.Prelude.{◌≡◌, ◌+◌, ◌<◌, ◌≤◌, [], List, ℕ, length, All, IfOk};
ghost use Rattle.token_bits.specs.Tokens.{byte_count, token_len};
ghost use Rattle.sled_model.specs.Measures.{class_len};
ghost use Rattle.sled_model.specs.Results.{one_match, class_results, bind_results};
ghost use Rattle.pattern_normal.specs.Alternatives.{shown, reaching as reaching_of, StandFor};

use crate::Spot;
use crate::alternative::Alternative;
use bit_cases::ByteCase;
use sled_base::{MAX_MATCH, NoMemory};
use sqlite_items::Items;
use std::alloc::Global;
use token_bits::{ClassId, FieldId, Tokens};

/// The alternative of every window that reaches to the end; none where no case does.
pub(crate) fn reaching(
    alloc: Global,
    end: usize,
    spots: Items<Spot>,
) -> Result<Items<Alternative>, NoMemory>
    ensures shown { IfOk result (λ cs. end ≤ MAX_MATCH → (tokens : Tokens) (window : List ℕ) → shown tokens window cs ≡ reaching_of tokens spots end window) }
    ensures ends { IfOk result (All (λ a. a.bits.len ≡ end)) }
    ensures count { IfOk result (λ cs. length cs ≤ 1) }
{
    let mut alternatives = Items::new(alloc);
    if end > MAX_MATCH as usize {
        return Ok(alternatives);
    }
    alternatives.push(Alternative {
        bits: ByteCase::any(end as u8),
        loose: false,
        spots,
    })?;
    Ok(alternatives)
}

/// Of no bytes.
pub(crate) fn empty_alternatives(
    alloc: Global,
    tokens: &Tokens,
    at: usize,
) -> Result<Items<Alternative>, NoMemory>
    requires { at ≤ MAX_MATCH }
    ensures { IfOk result (StandFor tokens.now (λ window i. one_match [] 0) 1 0 at) }
{
    reaching(alloc, at, Items::new(alloc))
}

pub(crate) fn class_alternatives(
    alloc: Global,
    tokens: &Tokens,
    class: ClassId,
    at: usize,
) -> Result<Items<Alternative>, NoMemory>
    requires { at ≤ MAX_MATCH }
    ensures { IfOk result (StandFor tokens.now (class_results tokens.now class) 1 (class_len tokens.now class) at) }
{
    match tokens.class(class) {
        Some(class) => reaching(alloc, at + class.byte_count(), Items::new(alloc)),
        None => Ok(Items::new(alloc)),
    }
}

pub(crate) fn bind_alternatives(
    alloc: Global,
    tokens: &Tokens,
    field: FieldId,
    at: usize,
) -> Result<Items<Alternative>, NoMemory>
    requires { at ≤ MAX_MATCH }
    ensures { IfOk result (StandFor tokens.now (bind_results tokens.now field) 1 (token_len tokens.now field) at) }
{
    let Some(class) = tokens.class_of(field) else {
        return Ok(Items::new(alloc));
    };
    let mut spots = Items::new(alloc);
    spots.push(Spot::Value {
        field,
        at: at as u8,
    })?;
    reaching(alloc, at + class.byte_count(), spots)
}

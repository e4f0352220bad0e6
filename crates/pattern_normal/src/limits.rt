// Alternatives of a field's relation to a limit.
ghost use Rattle.std.specs.Prelude.{◌≡◌, ◌+◌, ◌<◌, ◌≤◌, ◌^◌, IfOk};
ghost use Rattle.token_bits.specs.Tokens.{AreTokens, IsWidth, byte_count, width_of, token_len};
ghost use Rattle.sled_model.specs.Measures.{width_at, limit_weight};
ghost use Rattle.sled_model.specs.Results.{limit_results};
ghost use Rattle.pattern_normal.specs.Alternatives.{StandFor, AreLimitsOf};

use crate::alternative::{Alternative, plain_alternatives};
use crate::leaves::reaching;
use relation_cases::limit_cases;
use sled_base::{MAX_MATCH, NoMemory};
use sled_model::Relation;
use sqlite_items::Items;
use std::alloc::Global;
use token_bits::{Class, Field, FieldId, Tokens};

pub(crate) fn limit_alternatives(
    alloc: Global,
    tokens: &Tokens,
    field: FieldId,
    relation: Relation,
    limit: u32,
    at: usize,
) -> Result<Items<Alternative>, NoMemory>
    requires tokens { AreTokens tokens.now }
    requires at { at ≤ MAX_MATCH }
    ensures { IfOk result (StandFor tokens.now (limit_results tokens.now field relation limit) (limit_weight (width_at tokens.now field) relation limit) (token_len tokens.now field) at) }
{
    let Some(known) = tokens.field(field) else {
        return Ok(Items::new(alloc));
    };
    let Some(class) = tokens.class(known.class) else {
        return Ok(Items::new(alloc));
    };
    if at + class.byte_count() > MAX_MATCH as usize {
        return Ok(Items::new(alloc));
    }
    token_alternatives(alloc, class, known, relation, limit, at)
}

/// Where no value of the field reaches the limit, all of them have the same relations to it as 0.
fn token_alternatives(
    alloc: Global,
    class: Class,
    field: Field,
    relation: Relation,
    limit: u32,
    at: usize,
) -> Result<Items<Alternative>, NoMemory>
    requires width { IsWidth class.width }
    requires order { field.lo ≤ field.hi }
    requires within { field.hi < class.width }
    requires fits { at + byte_count class ≤ MAX_MATCH }
    ensures { IfOk result (AreLimitsOf class field relation limit at) }
{
    if u64::from(limit) < 1u64 << (field.hi - field.lo + 1) {
        let conditions = limit_cases(alloc, class, field, relation, limit, at as u8)?;
        return plain_alternatives(alloc, conditions.as_slice());
    }
    if relation.holds(0, limit) {
        reaching(alloc, at + class.byte_count(), Items::new(alloc))
    } else {
        Ok(Items::new(alloc))
    }
}

// The cases of a relation.
ghost use Rattle.std.specs.Prelude.{◌≡◌, ◌+◌, ◌^◌, ◌<◌, ◌≤◌, ℕ, List, length, All, IfOk, if◌then◌else◌};
ghost use Rattle.std.specs.List.{filter};
ghost use Rattle.token_bits.specs.Tokens.{IsWidth, byte_count, width_of};
ghost use Rattle.sled_model.specs.Results.{has_relation};
ghost use Rattle.sled_model.specs.Measures.{limit_weight};
ghost use Rattle.relation_cases.specs.Cases.{is_met, field_is};

use crate::blocks::relation_blocks;
use crate::masks::block_case;
use bit_cases::ByteCase;
use sled_base::NoMemory;
use sled_model::Relation;
use sqlite_items::Items;
use std::alloc::Global;
use token_bits::{Class, Field};

/// Conditions on the bytes of a window.
pub type CaseList = Items<ByteCase>;

/// The windows that have a token of the class at the offset `at`, in which the field has the relation to the limit: each of them
/// meets exactly one of the cases, and no other window meets any. Every case ends where the token does. There are as many cases as
/// the number of the field's values with the relation has one bits; so there is one for `Equal`, and for `Differs` one for each bit
/// of the field. `NoMemory` where there is no memory for them.
pub fn limit_cases(
    alloc: Global,
    class: Class,
    field: Field,
    relation: Relation,
    limit: u32,
    at: u8,
) -> Result<CaseList, NoMemory>
    requires width { IsWidth class.width }
    requires order { field.lo ≤ field.hi }
    requires within { field.hi < class.width }
    requires limit { limit < 2 ^ width_of field }
    requires fits { at + byte_count class ≤ 32 }
    ensures met { IfOk result (λ cases. (window : List ℕ) → All (λ byte. byte < 256) window
        → length (filter (λ case. is_met window case) cases) ≡ (if field_is class field (λ value. has_relation relation value limit) at window then 1 else 0)) }
    ensures len { IfOk result (All (λ case. case.len ≡ at + byte_count class)) }
    ensures count { IfOk result (λ cases. length cases ≡ limit_weight (width_of field) relation limit) }
{
    let blocks = relation_blocks(alloc, relation, limit, field.hi - field.lo + 1)?;
    let mut cases = Items::new(alloc);
    for block in blocks.as_slice() {
        cases.push(block_case(class, field, *block, at))?;
    }
    Ok(cases)
}

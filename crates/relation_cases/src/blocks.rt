// The values that have a relation to a limit, in blocks.
ghost use Rattle.std.specs.Prelude.{◌≡◌, ◌/◌, ◌^◌, ◌<◌, ◌≤◌, ◌++◌, ◌∷◌, [], IfOk, OnOk, bit_xor};
ghost use Rattle.relation_cases.specs.Blocks.{parting, parted, IsStrict, AreBlocksOf};

use sled_base::NoMemory;
use sled_model::Relation;
use sqlite_items::Items;
use std::alloc::Global;

/// The values whose bits from bit `free` on spell `top`. The bits below it are free.
#[derive(Clone, Copy)]
pub(crate) struct Block {
    pub(crate) top: u32,
    pub(crate) free: u8,
}

/// The values of `width` bits that have the relation to the limit, each in exactly one block.
pub(crate) fn relation_blocks(
    alloc: Global,
    relation: Relation,
    limit: u32,
    width: u8,
) -> Result<Items<Block>, NoMemory>
    requires width { width ≤ 32 }
    requires limit { limit < 2 ^ width }
    ensures { IfOk result (AreBlocksOf relation width limit) }
{
    match relation {
        Relation::Equal => one_block(
            alloc,
            Block {
                top: limit,
                free: 0,
            },
        ),
        Relation::Differs => parted_blocks(alloc, Relation::Differs, limit, width),
        Relation::Below => parted_blocks(alloc, Relation::Below, limit, width),
        Relation::AtMost => at_most_blocks(alloc, limit, width),
        Relation::Above => parted_blocks(alloc, Relation::Above, limit, width),
        Relation::AtLeast => at_least_blocks(alloc, limit, width),
    }
}

fn at_most_blocks(alloc: Global, limit: u32, width: u8) -> Result<Items<Block>, NoMemory>
    requires width { width ≤ 32 }
    requires limit { limit < 2 ^ width }
    ensures { IfOk result (AreBlocksOf Relation.AtMost width limit) }
{
    if u64::from(limit) + 1 == 1u64 << width {
        one_block(
            alloc,
            Block {
                top: 0,
                free: width,
            },
        )
    } else {
        parted_blocks(alloc, Relation::Below, limit + 1, width)
    }
}

fn at_least_blocks(alloc: Global, limit: u32, width: u8) -> Result<Items<Block>, NoMemory>
    requires width { width ≤ 32 }
    requires limit { limit < 2 ^ width }
    ensures { IfOk result (AreBlocksOf Relation.AtLeast width limit) }
{
    if limit == 0 {
        one_block(
            alloc,
            Block {
                top: 0,
                free: width,
            },
        )
    } else {
        parted_blocks(alloc, Relation::Above, limit - 1, width)
    }
}

fn one_block(alloc: Global, block: Block) -> Result<Items<Block>, NoMemory>
    ensures { IfOk result (λ blocks. blocks ≡ block ∷ []) }
{
    let mut blocks = Items::new(alloc);
    blocks.push(block)?;
    Ok(blocks)
}

/// The blocks for a relation that the limit itself does not have: one for each bit in which a value with the relation may be
/// the first to differ from the limit, from the highest bit down.
fn parted_blocks(
    alloc: Global,
    relation: Relation,
    limit: u32,
    width: u8,
) -> Result<Items<Block>, NoMemory>
    requires strict { IsStrict relation }
    requires width { width ≤ 32 }
    requires limit { limit < 2 ^ width }
    ensures { IfOk result (AreBlocksOf relation width limit) }
{
    let mut blocks = Items::new(alloc);
    for bit in 0..width {
        push_parted(&mut blocks, relation, limit, bit)?;
    }
    Ok(blocks)
}

/// Adds the block of the values that differ first in this bit, if they have the relation.
fn push_parted(
    blocks: &mut Items<Block>,
    relation: Relation,
    limit: u32,
    bit: u8,
) -> Result<(), NoMemory>
    requires { bit < 32 }
    ensures { OnOk result (blocks.new ≡ blocks.old ++ parted relation limit bit) }
{
    let block = parting(limit, bit);
    if relation.holds(block.top, limit >> bit) {
        blocks.push(block)?;
    }
    Ok(())
}

/// The values that have the limit's bits above this bit, and not the limit's in it.
fn parting(limit: u32, bit: u8) -> Block
    requires { bit < 32 }
    ensures { result ≡ parting limit bit }
{
    Block {
        top: (limit >> bit) ^ 1,
        free: bit,
    }
}

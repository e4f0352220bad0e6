// A block of a field's values as bytes under a mask.
ghost use Rattle.std.specs.Prelude.{◌≡◌, ◌+◌, ◌-◌, ◌*◌, ◌/◌, ◌^◌, ◌<◌, ◌≤◌, ℕ, List, All, slice_index};
ghost use Rattle.token_bits.specs.Tokens.{IsWidth, byte_count, width_of};
ghost use Rattle.relation_cases.specs.Blocks.{is_in, IsBlock};
ghost use Rattle.relation_cases.specs.Cases.{is_met, field_is, byte_at, bytes_below};

use crate::blocks::Block;
use bit_cases::ByteCase;
use token_bits::{Class, Field, Order};

/// The windows that have a token of the class at the offset `at`, in which the field has a value of the block.
pub(crate) fn block_case(class: Class, field: Field, block: Block, at: u8) -> ByteCase
    requires width { IsWidth class.width }
    requires order { field.lo ≤ field.hi }
    requires within { field.hi < class.width }
    requires block { IsBlock (width_of field) block }
    requires fits { at + byte_count class ≤ 32 }
    ensures met { (window : List ℕ) → All (λ byte. byte < 256) window → is_met window result ≡ field_is class field (λ value. is_in value block) at window }
    ensures len { result.len ≡ at + byte_count class }
{
    let count = class.byte_count();
    let mask = token_bytes(class, token_mask(field, block));
    let value = token_bytes(class, token_value(field, block));
    ByteCase::at(at, &mask[..count], &value[..count])
}

/// The bits of the token that are the same for all values of the block.
fn token_mask(field: Field, block: Block) -> u32
    requires order { field.lo ≤ field.hi }
    requires within { field.hi < 32 }
    requires block { IsBlock (width_of field) block }
    ensures { result ≡ 2 ^ (field.hi + 1) - 2 ^ (field.lo + block.free) }
{
    ((1u64 << (field.hi + 1)) - (1u64 << (field.lo + block.free))) as u32
}

/// What these bits are.
fn token_value(field: Field, block: Block) -> u32
    requires order { field.lo ≤ field.hi }
    requires within { field.hi < 32 }
    requires block { IsBlock (width_of field) block }
    ensures { result ≡ block.top * 2 ^ (field.lo + block.free) }
{
    (u64::from(block.top) << (field.lo + block.free)) as u32
}

/// The bytes of the class's token that spell the number, as many as the class has.
fn token_bytes(class: Class, number: u32) -> [u8; 4]
    requires { IsWidth class.width }
    ensures { (k : ℕ) → k < byte_count class → slice_index result k ≡ byte_at class.order (byte_count class) number k }
{
    let count = class.byte_count();
    let mut bytes = [0; 4];
    for k in 0..count {
        bytes[k] = ((number >> (8 * bytes_below(class.order, count, k))) % 256) as u8;
    }
    bytes
}

/// How many bytes of a token are less significant than the one at place `k`.
fn bytes_below(order: Order, count: usize, k: usize) -> usize
    requires { k < count }
    ensures { result ≡ bytes_below order count k }
{
    match order {
        Order::Big => count - 1 - k,
        Order::Little => k,
    }
}

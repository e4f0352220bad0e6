// Which windows meet the cases, and how many cases there are.
ghost use Rattle.std.specs.Prelude.{◌+◌, ◌≤◌, ◌<◌, ◌^◌};
ghost use Rattle.token_bits.specs.Tokens.{IsWidth, byte_count, width_of};

use crate::limit_cases;
use sled_base::NoMemory;
use sled_model::Relation;
use std::alloc::Global;
use std::cmp::Ordering;
use std::test::Fail;
use token_bits::{Class, ClassId, Field, Order};

const RELATIONS: [Relation; 6] = [
    Relation::Equal,
    Relation::Differs,
    Relation::Below,
    Relation::AtMost,
    Relation::Above,
    Relation::AtLeast,
];

/// For each relation, how many cases there are, and how many of them the window meets.
fn counts(
    alloc: Global,
    class: Class,
    field: Field,
    limit: u32,
    at: u8,
    window: &[u8],
) -> Result<([usize; 6], [usize; 6]), NoMemory>
    requires width { IsWidth class.width }
    requires order { field.lo ≤ field.hi }
    requires within { field.hi < class.width }
    requires limit { limit < 2 ^ width_of field }
    requires fits { at + byte_count class ≤ 32 }
{
    let mut all = [0; 6];
    let mut met = [0; 6];
    for k in 0..6 {
        let cases = limit_cases(alloc, class, field, RELATIONS[k], limit, at)?;
        all[k] = cases.len();
        met[k] = cases.as_slice().iter().filter(|c| c.meets(window)).count();
    }
    Ok((all, met))
}

/// Which relations a value has to the limit.
fn holding(value: u32, limit: u32) -> [usize; 6] {
    match value.cmp(&limit) {
        Ordering::Less => [0, 1, 1, 1, 0, 0],
        Ordering::Equal => [1, 0, 0, 1, 0, 1],
        Ordering::Greater => [0, 1, 0, 0, 1, 1],
    }
}

#[test]
fn whole_byte(rt: HostRuntime) -> Result<(), Fail> {
    let class = Class {
        width: 8,
        order: Order::Big,
    };
    let field = Field {
        class: ClassId(0),
        lo: 0,
        hi: 7,
    };
    for byte in 0..=255 {
        let (all, met) = counts(rt.alloc(), class, field, 0x5a, 1, &[9, byte])?;
        assert_eq!(rt; all, [1, 8, 4, 5, 4, 4]);
        assert_eq!(rt; met, holding(u32::from(byte), 0x5a));
        let (all, met) = counts(rt.alloc(), class, field, 0xff, 0, &[byte])?;
        assert_eq!(rt; all, [1, 8, 8, 1, 0, 1]);
        assert_eq!(rt; met, holding(u32::from(byte), 0xff));
        let (all, met) = counts(rt.alloc(), class, field, 0, 0, &[byte])?;
        assert_eq!(rt; all, [1, 8, 0, 1, 8, 1]);
        assert_eq!(rt; met, holding(u32::from(byte), 0));
    }
    Ok(())
}

#[test]
fn five_bits_of_a_little_halfword(rt: HostRuntime) -> Result<(), Fail> {
    let class = Class {
        width: 16,
        order: Order::Little,
    };
    let field = Field {
        class: ClassId(0),
        lo: 6,
        hi: 10,
    };
    for value in 0..32 {
        let window = [0x2a + value as u8 % 4 * 64, 0xf8 + value as u8 / 4, 3];
        let (all, met) = counts(rt.alloc(), class, field, 13, 0, &window)?;
        assert_eq!(rt; all, [1, 5, 3, 3, 2, 3]);
        assert_eq!(rt; met, holding(value, 13));
    }
    let (_, met) = counts(rt.alloc(), class, field, 13, 0, &[0x40])?;
    assert_eq!(rt; met, [0; 6]);
    Ok(())
}

#[test]
fn whole_word(rt: HostRuntime) -> Result<(), Fail> {
    let class = Class {
        width: 32,
        order: Order::Big,
    };
    let field = Field {
        class: ClassId(0),
        lo: 0,
        hi: 31,
    };
    let limit: u32 = 0xdead_beef;
    for value in [
        0u32,
        0x7fff_ffff,
        0xdead_beee,
        limit,
        0xdead_bef0,
        0xffff_ffff,
    ] {
        let bytes = value.to_be_bytes();
        let (all, met) = counts(rt.alloc(), class, field, limit, 0, &bytes)?;
        assert_eq!(rt; all, [1, 32, 24, 21, 8, 9]);
        assert_eq!(rt; met, holding(value, limit));
    }
    Ok(())
}

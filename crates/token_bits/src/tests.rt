ghost use Rattle.std.specs.Prelude.{◌≡◌, ◌≤◌, ◌<◌, ◌+◌, ◌-◌, ◌^◌, length};
ghost use Rattle.token_bits.specs.Tokens.{IsWidth};

use crate::{Class, Field, Order, Tokens};
use sled_base::NoMemory;
use std::alloc::Global;
use std::test::Fail;

/// What bits lo to hi of the class's token behind a first byte spell before and after the value is put there, and the bytes then.
fn put(
    alloc: Global,
    class: Class,
    lo: u8,
    hi: u8,
    value: u32,
) -> Result<(Option<u32>, Option<u32>, [u8; 6]), NoMemory>
    requires width { IsWidth class.width }
    requires order { lo ≤ hi }
    requires within { hi < class.width }
    requires value { value < 2 ^ (hi - lo + 1) }
{
    let mut tokens = Tokens::new(alloc);
    let class = tokens.add_class(class)?;
    let field = tokens.add_field(Field { class, lo, hi })?;
    let mut window = [0x11, 0x22, 0x33, 0x44, 0x55, 0x66];
    let before = tokens.field_value(field, &window, 1);
    tokens.put_field(field, value, &mut window, 1);
    Ok((before, tokens.field_value(field, &window, 1), window))
}

#[test]
fn bytes(rt: HostRuntime) -> Result<(), Fail> {
    let rows = [
        (Order::Big, 5, 5, 0, 1, 0x02),
        (Order::Little, 2, 6, 21, 8, 0x56),
        (Order::Big, 0, 7, 0xab, 0x22, 0xab),
    ];
    for (order, lo, hi, value, before, byte) in rows {
        let want = (
            Some(before),
            Some(value),
            [0x11, byte, 0x33, 0x44, 0x55, 0x66],
        );
        assert_eq!(rt;
            put(rt.alloc(), Class { width: 8, order }, lo, hi, value)?,
            want
        );
    }
    Ok(())
}

#[test]
fn halfwords(rt: HostRuntime) -> Result<(), Fail> {
    let rows = [
        (Order::Big, 2, 14, 0x1555, 0x088c, [0x55, 0x57]),
        (Order::Little, 2, 14, 0x1555, 0x0cc8, [0x56, 0x55]),
        (Order::Big, 15, 15, 1, 0, [0xa2, 0x33]),
        (Order::Little, 0, 0, 1, 0, [0x23, 0x33]),
        (Order::Little, 4, 11, 0xff, 0x32, [0xf2, 0x3f]),
        (Order::Big, 0, 4, 0, 0x13, [0x22, 0x20]),
    ];
    for (order, lo, hi, value, before, [a, b]) in rows {
        let want = (Some(before), Some(value), [0x11, a, b, 0x44, 0x55, 0x66]);
        assert_eq!(rt;
            put(rt.alloc(), Class { width: 16, order }, lo, hi, value)?,
            want
        );
    }
    Ok(())
}

#[test]
fn words(rt: HostRuntime) -> Result<(), Fail> {
    let rows = [
        (
            Order::Big,
            0,
            31,
            0xdeadbeef,
            0x22334455,
            [0xde, 0xad, 0xbe, 0xef],
        ),
        (
            Order::Little,
            0,
            31,
            0xdeadbeef,
            0x55443322,
            [0xef, 0xbe, 0xad, 0xde],
        ),
        (Order::Big, 12, 24, 0x1fff, 0x0334, [0x23, 0xff, 0xf4, 0x55]),
        (Order::Little, 12, 24, 0, 0x1443, [0x22, 0x03, 0x00, 0x54]),
        (Order::Big, 27, 31, 31, 4, [0xfa, 0x33, 0x44, 0x55]),
        (Order::Little, 3, 7, 17, 4, [0x8a, 0x33, 0x44, 0x55]),
        (Order::Little, 31, 31, 1, 0, [0x22, 0x33, 0x44, 0xd5]),
        (Order::Big, 8, 15, 0x99, 0x44, [0x22, 0x33, 0x99, 0x55]),
    ];
    for (order, lo, hi, value, before, [a, b, c, d]) in rows {
        let want = (Some(before), Some(value), [0x11, a, b, c, d, 0x66]);
        assert_eq!(rt;
            put(rt.alloc(), Class { width: 32, order }, lo, hi, value)?,
            want
        );
    }
    Ok(())
}

#[test]
fn what_is_known(rt: HostRuntime) -> Result<(), Fail> {
    let mut tokens = Tokens::new(rt.alloc());
    let class = tokens.add_class(Class {
        width: 16,
        order: Order::Little,
    })?;
    let field = tokens.add_field(Field {
        class,
        lo: 0,
        hi: 15,
    })?;
    assert_eq!(rt; tokens.class(class).map(|c| c.byte_count()), Some(2));
    assert_eq!(rt;
        tokens.class_of(field).map(|c| c.order),
        Some(Order::Little)
    );
    assert_eq!(rt; tokens.field(field).map(|f| f.hi), Some(15));
    assert_eq!(rt; tokens.token_len(field), 2);
    assert_eq!(rt; tokens.field_value(field, &[0x34, 0x12], 0), Some(0x1234));
    assert_eq!(rt; tokens.field_value(field, &[0x34, 0x12], 1), None);
    Ok(())
}

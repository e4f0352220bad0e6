// The numbers that the bytes of a token spell.
ghost use Rattle.std.specs.Prelude.{◌≡◌, ◌≤◌, ◌<◌, ◌^◌, ◌++◌, length, take, drop};
ghost use Rattle.token_bits.specs.Tokens.{number_of, in_order};
ghost use Rattle.token_bits.specs.Bytes.{number_bytes};

use crate::Order;
use byteorder::{BigEndian, ByteOrder, LittleEndian};

/// The number that the first bytes spell.
pub(crate) fn read_number(order: Order, bytes: &[u8], count: usize) -> u32
    requires some { 1 ≤ count }
    requires few { count ≤ 4 }
    requires room { count ≤ length bytes.now }
    ensures number { result ≡ number_of (in_order order (take count bytes.now)) }
    ensures fits { result < 256 ^ count }
{
    match order {
        Order::Big => BigEndian::read_uint(bytes, count) as u32,
        Order::Little => LittleEndian::read_uint(bytes, count) as u32,
    }
}

/// Makes the first bytes spell the number.
pub(crate) fn write_number(order: Order, number: u32, bytes: &mut [u8], count: usize)
    requires some { 1 ≤ count }
    requires few { count ≤ 4 }
    requires room { count ≤ length bytes.old }
    requires fits { number < 256 ^ count }
    ensures { bytes.new ≡ number_bytes order count number ++ drop count bytes.old }
{
    match order {
        Order::Big => BigEndian::write_uint(bytes, u64::from(number), count),
        Order::Little => LittleEndian::write_uint(bytes, u64::from(number), count),
    }
}

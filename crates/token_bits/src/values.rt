// The values of fields in tokens.
ghost use Rattle.std.specs.Prelude.{◌≡◌, ◌≤◌, ◌<◌, ◌+◌, ◌^◌, ◌++◌, length, take, drop, IfSome, slice_get};
ghost use Rattle.std.specs.Option.{IsSomeAnd};
ghost use Rattle.token_bits.specs.Tokens.{byte_count, token, bits_of, token_len, value_at, width_of, IsWidth, AreTokens};
ghost use Rattle.token_bits.specs.Bytes.{number_bytes, with_bits};
ghost use Rattle.token_bits.specs.Put.{IsPut};

use crate::numbers::{read_number, write_number};
use crate::{Class, Field, FieldId, Tokens};

impl Tokens {
    /// The value of the field in the token at the offset `at` of the window. For a known field it is None exactly where the
    /// token does not fit in the window, and for an unknown one always.
    pub fn field_value(&self, field: FieldId, window: &[u8], at: usize) -> Option<u32>
        requires { AreTokens self.now }
        ensures { result ≡ value_at self.now field window.now at }
    {
        let field = self.field(field)?;
        let number = self.class(field.class)?.token_at(window, at)?;
        Some(field.value_of(number))
    }

    /// Puts the value into the field of the token at the offset `at` of the window. Every other bit of the window stays.
    pub fn put_field(&self, field: FieldId, value: u32, window: &mut [u8], at: usize)
        requires sound { AreTokens self.now }
        requires room { at + token_len self.now field ≤ length window.old }
        requires value { IsSomeAnd (slice_get self.now.fields field.0) (λ known. value < 2 ^ width_of known) }
        ensures { IsPut self.now field value window.old window.new at }
    {
        let Some(field) = self.field(field) else {
            return;
        };
        let Some(class) = self.class(field.class) else {
            return;
        };
        if let Some(number) = class.token_at(window, at) {
            class.write_at(field.with_value(number, value), window, at);
        }
    }
}

impl Class {
    /// The token of the class at the offset of the window, or None where not all its bytes exist.
    pub fn token_at(self, window: &[u8], at: usize) -> Option<u32>
        requires { IsWidth self.width }
        ensures number { result ≡ token self window.now at }
        ensures fits { IfSome result (λ number. number < 2 ^ self.width) }
    {
        let count = self.byte_count();
        if window.len() < count || window.len() - count < at {
            return None;
        }
        Some(read_number(self.order, &window[at..], count))
    }

    /// Makes the token of the class at the offset of the window this number.
    fn write_at(self, number: u32, window: &mut [u8], at: usize)
        requires width { IsWidth self.width }
        requires room { at + byte_count self ≤ length window.old }
        requires fits { number < 2 ^ self.width }
        ensures { window.new ≡ take at window.old ++ number_bytes self.order (byte_count self) number ++ drop (at + byte_count self) window.old }
    {
        let count = self.byte_count();
        write_number(self.order, number, &mut window[at..], count);
    }
}

impl Field {
    /// The value of the field in a token.
    fn value_of(self, token: u32) -> u32
        requires order { self.lo ≤ self.hi }
        requires within { self.hi < 32 }
        ensures { result ≡ bits_of self.lo self.hi token }
    {
        ((u64::from(token) >> self.lo) % (1u64 << (self.hi - self.lo + 1))) as u32
    }

    /// The token with the value in the field's place.
    fn with_value(self, token: u32, value: u32) -> u32
        requires order { self.lo ≤ self.hi }
        requires within { self.hi < 32 }
        requires value { value < 2 ^ width_of self }
        ensures { result ≡ with_bits self.lo self.hi value token }
    {
        let token = u64::from(token);
        let above = token >> (self.hi + 1);
        let from_lo = (above << (self.hi - self.lo + 1)) + u64::from(value);
        ((from_lo << self.lo) + token % (1u64 << self.lo)) as u32
    }
}

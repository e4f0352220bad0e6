// The numbers that a field is compared with.
ghost use Rattle.std.specs.Prelude.{◌≡◌, ◌≤◌, ◌^◌, nat_lt, length, true};
ghost use Rattle.std.specs.List.{list_all};
ghost use Rattle.token_bits.specs.Tokens.{AreTokens};
ghost use Rattle.sled_lexer.specs.Spelled as spelled;
ghost use Rattle.tree_meaning.specs.Values as values;

use sled_lexer::{number_in_range, number_value};
use sled_parser::tree::{Spelling, ValueTree};
use token_bits::{FieldId, Tokens};

/// How many values the field has: 2 to the power of its width, or none where there is no such field.
pub fn value_count(tokens: &Tokens, field: FieldId) -> u64
    requires { AreTokens tokens.now }
    ensures value { result ≡ values.value_count tokens.now field }
    ensures small { result ≤ 2 ^ 32 }
{
    match tokens.field(field) {
        Some(field) => 1u64 << (field.hi - field.lo + 1),
        None => 0,
    }
}

// Whether the Number, of whatever size, is below the count.
fn is_below(number: &[u8], count: u64) -> bool
    requires { count ≤ 2 ^ 32 }
    ensures { result ≡ nat_lt (spelled.number_value number.now) count }
{
    match number_in_range(number) {
        Some(value) => u64::from(value) < count,
        None => false,
    }
}

fn all_below(numbers: &[Spelling], count: u64) -> bool
    requires { count ≤ 2 ^ 32 }
    ensures { result ≡ list_all (λ n. nat_lt (spelled.number_value n) count) numbers.now }
{
    numbers.iter().all(|n| is_below(n.as_slice(), count))
}

/// Whether each of the numbers is one of the field's values.
pub fn all_fit(tokens: &Tokens, field: FieldId, value: &ValueTree) -> bool
    requires tokens { AreTokens tokens.now }
    requires numbers { values.has_numbers_in_range value.now ≡ true }
    ensures { result ≡ values.all_fit tokens.now field value.now }
{
    let count = value_count(tokens, field);
    match value {
        ValueTree::One(number) => is_below(number.as_slice(), count),
        ValueTree::Range { first, last } => {
            number_value(first.as_slice()) > number_value(last.as_slice())
                || is_below(last.as_slice(), count)
        }
        ValueTree::Listed(numbers) => all_below(numbers.as_slice(), count),
    }
}

/// How many numbers the field is compared with, in turn.
pub fn number_count(value: &ValueTree) -> u64
    requires { values.has_numbers_in_range value.now ≡ true }
    ensures { result ≡ length (values.value_numbers value.now) }
{
    match value {
        ValueTree::One(_) => 1,
        ValueTree::Range { first, last } => {
            let first = u64::from(number_value(first.as_slice()));
            (u64::from(number_value(last.as_slice())) + 1).saturating_sub(first)
        }
        ValueTree::Listed(numbers) => numbers.len() as u64,
    }
}

/// Whether it is a number, and no generating expression.
pub fn is_one_number(value: &ValueTree) -> bool
    ensures { result ≡ values.is_one_number value.now }
{
    matches!(value, ValueTree::One(_))
}

// The values of a field at which a sum is greatest.

ghost use Rattle.std.specs.Prelude.{◌≡◌, ◌+◌, ◌^◌, ◌<◌, ◌≤◌, ◌+ℤ◌, ◌-ℤ◌, ◌≤ℤ◌, ◌⊎◌, pos, ℤ, ℕ, length, All};
ghost use Rattle.sled_model.specs.Equations.{IsBetween};
ghost use Rattle.sled_model.specs.Linear.{IsWithin};
ghost use Rattle.eq_solver.specs.Order.{part_of, share};
ghost use Rattle.eq_solver.specs.Corners.{better_of, best_of};

use crate::sums::{extended, scaled};
use sled_model::{Atom, Term};
use token_bits::FieldId;

fn part(half: i64, cell: u32, value: i64, atom: Atom) -> i64
    requires half { IsBetween (pos 1) (pos (2 ^ 31 + 17)) half }
    requires value { IsBetween (pos 0) (half +ℤ half) value }
    ensures is { result ≡ part_of half cell value atom }
    ensures within { IsWithin (2 ^ 34) result }
{
    match atom {
        Atom::Field(FieldId(field)) => if field == cell { value } else { 0 },
        Atom::Signed(FieldId(field)) => if field == cell {
            extended(half, value)
        } else {
            0
        },
        Atom::Name(_) | Atom::Slice { .. } | Atom::Label(_) => 0,
    }
}

/// What the field gives the sum.
fn share(half: i64, cell: u32, value: i64, terms: &[Term]) -> i64
    requires half { IsBetween (pos 1) (pos (2 ^ 31 + 17)) half }
    requires value { IsBetween (pos 0) (half +ℤ half) value }
    requires terms { All (λ t. IsWithin (2 ^ 16) t.coefficient) terms.now }
    requires few { length terms.now ≤ 16 }
    ensures { result ≡ share half cell value terms.now }
{
    let mut total = 0;
    for term in terms {
        total += scaled(term.coefficient, part(half, cell, value, term.atom));
    }
    total
}

fn better(half: i64, cell: u32, terms: &[Term], first: i64, second: i64) -> i64
    requires half { IsBetween (pos 1) (pos (2 ^ 31 + 17)) half }
    requires first { IsBetween (pos 0) (half +ℤ half) first }
    requires second { IsBetween (pos 0) (half +ℤ half) second }
    requires terms { All (λ t. IsWithin (2 ^ 16) t.coefficient) terms.now }
    requires few { length terms.now ≤ 16 }
    ensures is { result ≡ better_of half cell terms.now first second }
    ensures range { IsBetween (pos 0) (half +ℤ half) result }
{
    if share(half, cell, first, terms) < share(half, cell, second, terms) {
        second
    } else {
        first
    }
}

/// The value in range at which the field gives the sum most.
pub fn best(half: i64, cell: u32, terms: &[Term]) -> i64
    requires half { IsBetween (pos 1) (pos (2 ^ 31 + 17)) half }
    requires terms { All (λ t. IsWithin (2 ^ 16) t.coefficient) terms.now }
    requires few { length terms.now ≤ 16 }
    ensures is { result ≡ best_of half cell terms.now }
    ensures range { IsBetween (pos 0) (half +ℤ half) result }
{
    let low = better(half, cell, terms, 0, half - 1);
    let high = better(half, cell, terms, half, half + half - 1);
    better(half, cell, terms, low, high)
}

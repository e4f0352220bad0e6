// The value of a sum.

ghost use Rattle.std.specs.Prelude.{◌≡◌, ◌+◌, ◌*◌, ◌^◌, ◌<◌, ◌≤◌, ◌+ℤ◌, ◌-ℤ◌, ◌*ℤ◌, ◌≤ℤ◌, ◌<ℤ◌, pos, ℤ, ℕ, length, All};
ghost use Rattle.sled_model.specs.Equations.{sign_extended, slice_of, atom_value, sum_of, IsBetween};
ghost use Rattle.sled_model.specs.Linear.{IsWithin};
ghost use Rattle.eq_solver.specs.Sums.{at, setting_from, IsTerm, IsAtom, AreValues};

use sled_model::{Atom, Term};
use token_bits::FieldId;

/// A multiple of the value.
pub fn scaled(coefficient: i64, value: i64) -> i64
    requires coefficient { IsWithin (2 ^ 16) coefficient }
    requires value { IsWithin (2 ^ 34) value }
    ensures is { result ≡ coefficient *ℤ value }
    ensures within { IsWithin (2 ^ 50) result }
{
    coefficient * value
}

/// The number in this place.
pub fn number_at(xs: &[i64], k: u32) -> i64
    requires { k < length xs.now }
    ensures { result ≡ at xs.now k }
{
    xs[k as usize]
}

/// The field's value with its sign extended.
pub fn extended(half: i64, value: i64) -> i64
    requires half { IsBetween (pos 1) (pos (2 ^ 31 + 17)) half }
    requires value { IsBetween (pos 0) (half +ℤ half) value }
    ensures is { result ≡ sign_extended half value }
    ensures within { IsWithin (2 ^ 34) result }
{
    if value < half {
        value
    } else {
        value - (half + half)
    }
}

/// The bits `lo` to `hi` of the value.
pub fn slice(value: i64, lo: u8, hi: u8) -> i64
    requires value { IsBetween (pos 0) (pos (2 ^ 32)) value }
    requires order { lo ≤ hi }
    requires most { hi ≤ 31 }
    ensures is { result ≡ slice_of lo hi value }
    ensures within { IsWithin (2 ^ 34) result }
{
    let number = value as u64;
    ((number >> lo) % (1u64 << (hi - lo + 1))) as i64
}

/// The value of an atom.
pub fn value_of(halves: &[i64], operands: &[i64], labels: &[i64], fields: &[i64], atom: Atom) -> i64
    requires atom { IsAtom operands.now (length fields.now) (length labels.now) atom }
    requires values { AreValues halves.now operands.now labels.now fields.now }
    ensures is { result ≡ atom_value (setting_from halves.now operands.now labels.now) (at fields.now) atom }
    ensures within { IsWithin (2 ^ 34) result }
{
    match atom {
        Atom::Name(k) => number_at(operands, k),
        Atom::Field(FieldId(f)) => number_at(fields, f),
        Atom::Signed(FieldId(f)) => extended(number_at(halves, f), number_at(fields, f)),
        Atom::Slice { operand, lo, hi } => slice(number_at(operands, operand), lo, hi),
        Atom::Label(k) => number_at(labels, k),
    }
}

/// The value of a sum of at most 16 terms.
pub fn sum(halves: &[i64], operands: &[i64], labels: &[i64], fields: &[i64], terms: &[Term]) -> i64
    requires terms { All (IsTerm operands.now (length fields.now) (length labels.now)) terms.now }
    requires few { length terms.now ≤ 16 }
    requires values { AreValues halves.now operands.now labels.now fields.now }
    ensures is { result ≡ sum_of (setting_from halves.now operands.now labels.now) (at fields.now) terms.now }
    ensures within { IsWithin (2 ^ 54) result }
{
    let mut total = 0;
    for term in terms {
        total += scaled(
            term.coefficient,
            value_of(halves, operands, labels, fields, term.atom),
        );
    }
    total
}

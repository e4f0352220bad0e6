// Operands by their values.
ghost use Rattle.std.specs.Prelude.{◌≡◌, ◌≢◌, ◌+◌, ◌-◌, ◌*◌, ◌^◌, ◌<◌, ◌≤◌, ◌⊎◌, ◌+ℤ◌, [], pos, ℤ, ℕ, length, All, slice_get, Some, unsigned_abs};
ghost use Rattle.eq_solver.specs.declared.plan.Value.{Value};
ghost use Rattle.sled_model.specs.Equations.{IsBetween};
ghost use Rattle.sled_model.specs.Linear.{IsWithin};
ghost use Rattle.eq_solver.specs.Sums.{at, setting_from, AreValues, IsTerm};
ghost use Rattle.eq_solver.specs.Given.{IsPlaced, value_at, HasValue, AreApart, FitsSlice, HasRoom, HasSlice, pieces_of, IsMadeOf};
ghost use Rattle.eq_solver.specs.Pieces.{IsChain};

use crate::plan::Value;
use crate::sums::sum;
use sled_model::Atom;

fn value_of(halves: &[i64], labels: &[i64], fields: &[i64], value: &Value) -> i64
    requires values { AreValues halves.now [] labels.now fields.now }
    requires terms { All (IsTerm [] (length fields.now) (length labels.now)) value.now.terms }
    requires few { length value.now.terms ≤ 16 }
    requires rest { IsWithin (2 ^ 36) value.now.rest }
    ensures { result ≡ value_at (setting_from halves.now [] labels.now) (at fields.now) value.now }
{
    sum(halves, &[], labels, fields, value.terms.as_slice()) + value.rest
}

/// Writes the operand of one value, where it is a whole one.
fn write_whole(value: &Value, halves: &[i64], labels: &[i64], fields: &[i64], out: &mut [i64])
    requires given { AreValues halves.now [] labels.now fields.now }
    requires placed { IsPlaced (length out.old) (length fields.now) (length labels.now) value.now }
    ensures has { HasValue (setting_from halves.now [] labels.now) (at fields.now) (at out.new) value.now }
    ensures kept { (k : ℕ) → (value.now.target ≡ Atom.Name k → ⊥) → at out.new k ≡ at out.old k }
{
    if let Atom::Name(operand) = value.target {
        out[operand as usize] = value_of(halves, labels, fields, value);
    }
}

/// Writes each whole operand: the only numbers with which the equations of these values hold.
pub fn write_wholes(
    values: &[Value],
    halves: &[i64],
    labels: &[i64],
    fields: &[i64],
    out: &mut [i64],
)
    requires given { AreValues halves.now [] labels.now fields.now }
    requires placed { All (IsPlaced (length out.old) (length fields.now) (length labels.now)) values.now }
    requires distinct { AreApart values.now }
    ensures has { (j : ℕ) (g : Value) → slice_get values.now j ≡ Some g → HasValue (setting_from halves.now [] labels.now) (at fields.now) (at out.new) g }
    ensures kept { (k : ℕ) → ((j : ℕ) (g : Value) → slice_get values.now j ≡ Some g → g.target ≡ Atom.Name k → ⊥) → at out.new k ≡ at out.old k }
{
    for number in 0..values.len() {
        write_whole(&values[number], halves, labels, fields, out);
    }
}

/// A number with one more slice, `width` bits, below what it has.
fn joined(high: i64, width: u8, low: i64) -> i64
    requires some { 0 < width }
    requires width { width ≤ 32 }
    requires high { IsBetween (pos 0) (pos (2 ^ (32 - width))) high }
    requires low { IsBetween (pos 0) (pos (2 ^ width)) low }
    ensures { result ≡ pos (unsigned_abs high * 2 ^ width + unsigned_abs low) }
{
    (((high as u64) << width) + low as u64) as i64
}

/// Adds the slice of one value to its operand, where it is a slice.
fn write_slice(value: &Value, halves: &[i64], labels: &[i64], fields: &[i64], out: &mut [i64])
    requires given { AreValues halves.now [] labels.now fields.now }
    requires placed { IsPlaced (length out.old) (length fields.now) (length labels.now) value.now }
    requires fits { FitsSlice (setting_from halves.now [] labels.now) (at fields.now) value.now value.now.target }
    requires room { HasRoom (at out.old) value.now.target }
    ensures { HasSlice (value_at (setting_from halves.now [] labels.now) (at fields.now) value.now) value.now.target (at out.old) (at out.new) }
{
    if let Atom::Slice { operand, lo, hi } = value.target {
        let slice = value_of(halves, labels, fields, value);
        out[operand as usize] = joined(out[operand as usize], hi - lo + 1, slice);
    }
}

/// Makes each sliced operand of its slices, which these numbers name: those of one operand from the highest bit down.
pub fn write_slices(
    values: &[Value],
    numbers: &[usize],
    halves: &[i64],
    labels: &[i64],
    fields: &[i64],
    out: &mut [i64],
)
    requires given { AreValues halves.now [] labels.now fields.now }
    requires placed { All (IsPlaced (length out.old) (length fields.now) (length labels.now)) values.now }
    requires fits { (j : ℕ) (g : Value) → slice_get values.now j ≡ Some g → FitsSlice (setting_from halves.now [] labels.now) (at fields.now) g g.target }
    requires within { All (λ n. n < length values.now) numbers.now }
    requires chains { (k : ℕ) → (pieces_of (setting_from halves.now [] labels.now) (at fields.now) values.now k numbers.now ≡ []) ⊎ ((at out.old k ≡ pos 0) × IsChain 32 (pieces_of (setting_from halves.now [] labels.now) (at fields.now) values.now k numbers.now)) }
    ensures { (k : ℕ) → IsMadeOf (pieces_of (setting_from halves.now [] labels.now) (at fields.now) values.now k numbers.now) (at out.old k) (at out.new k) }
{
    for number in numbers {
        write_slice(&values[*number], halves, labels, fields, out);
    }
}

// The operands that fields and labels give.
ghost use Rattle.std.specs.Prelude.{◌≡◌, ◌≢◌, ◌+◌, ◌^◌, ◌<◌, ◌+ℤ◌, [], pos, ℤ, ℕ, length, All};
ghost use Rattle.token_bits.specs.declared.tokens.Tokens.{Tokens};
ghost use Rattle.sled_model.specs.declared.constructor.Constructor.{Constructor};
ghost use Rattle.sled_model.specs.Equations.{IsBetween};
ghost use Rattle.sled_model.specs.Solved.{AreLabelValues};
ghost use Rattle.eq_solver.specs.Sums.{at};
ghost use Rattle.eq_solver.specs.Plans.{FitsSource, source_at};
ghost use Rattle.eq_solver.specs.Starts.{IsSourceOf};
ghost use Rattle.eq_solver.specs.Cells.{IsPlanOf};
ghost use Rattle.eq_solver.specs.Operands.{IsOperandOf, AreSourcesApart, IsPlanWith, AreCellValues, AreOnlyOperands, AreWritable, AreWritten};

use crate::given::{write_slices, write_wholes};
use crate::plan::{Plan, Source, Value};
use crate::sums::extended;

fn clear(out: &mut [i64])
    ensures { (k : ℕ) → at out.new k ≡ pos 0 }
{
    for operand in 0..out.len() {
        out[operand] = 0;
    }
}

/// Writes the operand that a field is, if it is one.
fn write_field(source: Source, half: i64, value: i64, out: &mut [i64])
    requires half { IsBetween (pos 1) (pos (2 ^ 31 + 1)) half }
    requires value { IsBetween (pos 0) (half +ℤ half) value }
    requires source { IsSourceOf (length out.old) source }
    ensures fits { FitsSource half (at out.new) value source }
    ensures kept { (k : ℕ) → (IsOperandOf source k → ⊥) → at out.new k ≡ at out.old k }
{
    match source {
        Source::Hidden => {}
        Source::Plain(operand) => out[operand as usize] = value,
        Source::Extended(operand) => out[operand as usize] = extended(half, value),
    }
}

/// Writes the operands that are fields: the field's value, or with its sign extended.
fn write_fields(halves: &[i64], sources: &[Source], fields: &[i64], out: &mut [i64])
    requires halves { length halves.now ≡ length sources.now }
    requires fields { length fields.now ≡ length sources.now }
    requires half { (k : ℕ) → k < length halves.now → IsBetween (pos 1) (pos (2 ^ 31 + 1)) (at halves.now k) }
    requires range { (k : ℕ) → k < length halves.now → IsBetween (pos 0) (at halves.now k +ℤ at halves.now k) (at fields.now k) }
    requires sources { All (IsSourceOf (length out.old)) sources.now }
    requires apart { AreSourcesApart sources.now }
    ensures fits { (f : ℕ) → f < length sources.now → FitsSource (at halves.now f) (at out.new) (at fields.now f) (source_at sources.now f) }
    ensures kept { (k : ℕ) → ((f : ℕ) → f < length sources.now → IsOperandOf (source_at sources.now f) k → ⊥) → at out.new k ≡ at out.old k }
{
    for cell in 0..sources.len() {
        write_field(sources[cell], halves[cell], fields[cell], out);
    }
}

/// Writes the operands: fields, whole ones, and sliced ones.
fn write_operands(
    halves: &[i64],
    sources: &[Source],
    values: &[Value],
    slices: &[usize],
    fields: &[i64],
    labels: &[i64],
    out: &mut [i64],
)
    requires writable { AreWritable halves.now labels.now fields.now sources.now values.now slices.now (length out.old) }
    ensures { AreWritten halves.now labels.now fields.now sources.now values.now slices.now out.new }
{
    clear(out);
    write_fields(halves, sources, fields, out);
    write_wholes(values, halves, labels, fields, out);
    write_slices(values, slices, halves, labels, fields, out);
}

impl Plan {
    /// Writes the operands, in the order of the constructor's: each whole and sliced one by the equations, a field operand as the field's
    /// value, or its sign-extended value, and 0 for a typed one. There is one field for each bare field of the body, each in its range, one
    /// label for each of the body's, from 0 to 2^32 + 31, and one place in `out` for each operand. Takes no memory.
    pub fn operands(&self, fields: &[i64], labels: &[i64], out: &mut [i64])
        requires plan { IsPlanWith self.now (length labels.now) (length out.old) }
        requires fields { AreCellValues self.now.halves fields.now }
        requires labels { AreLabelValues (at labels.now) }
        ensures { (tokens : Tokens) (c : Constructor) → IsPlanOf tokens c self.now → AreOnlyOperands tokens c fields.now (at labels.now) (at out.new) }
    {
        write_operands(
            self.halves.as_slice(),
            self.sources.as_slice(),
            self.values.as_slice(),
            self.slices.as_slice(),
            fields,
            labels,
            out,
        );
    }
}

// The values that operands give to fields.

ghost use Rattle.std.specs.Prelude.{◌≡◌, ◌+◌, ◌^◌, ◌<◌, ◌+ℤ◌, ◌-ℤ◌, pos, ℤ, ℕ, length, true, All, IfOk, IfErr};
ghost use Rattle.eq_solver.specs.Steps.{IsOnlyRead};
ghost use Rattle.sled_model.specs.Equations.{IsBetween};
ghost use Rattle.eq_solver.specs.Sums.{at, setting_from};
ghost use Rattle.eq_solver.specs.Plans.{FitsSource, IsInRange, source_at, IsSolution, HasNoSolution};
ghost use Rattle.token_bits.specs.declared.tokens.Tokens.{Tokens};
ghost use Rattle.sled_model.specs.declared.constructor.Constructor.{Constructor};
ghost use Rattle.sled_model.specs.Solutions.{IsFirstUnsolvable, setting_of};
ghost use Rattle.eq_solver.specs.Cells.{IsPlanOf, AreOnlyFields};
ghost use Rattle.eq_solver.specs.Starts.{IsStart, IsSourceOf, IsSound, Suits};

use crate::plan::{NoSolution, Plan, Source};
use crate::solve::run;
use crate::sums::number_at;

/// The only value that fits, or 0 where none is given.
fn start(half: i64, operands: &[i64], source: Source) -> i64
    requires half { IsBetween (pos 1) (pos (2 ^ 31 + 1)) half }
    requires operand { IsSourceOf (length operands.now) source }
    requires range { IsInRange half (at operands.now) source }
    ensures { IsStart half (at operands.now) source result }
{
    match source {
        Source::Hidden => 0,
        Source::Plain(operand) => number_at(operands, operand),
        Source::Extended(operand) => unsigned(half, number_at(operands, operand)),
    }
}

fn unsigned(half: i64, value: i64) -> i64
    requires half { IsBetween (pos 1) (pos (2 ^ 31 + 1)) half }
    requires range { IsBetween (pos 0 -ℤ half) half value }
    ensures { IsOnlyRead half true value result }
{
    if value < 0 {
        value + (half + half)
    } else {
        value
    }
}

fn fill(halves: &[i64], sources: &[Source], operands: &[i64], out: &mut [i64])
    requires halves { length halves.now ≡ length sources.now }
    requires out { length out.old ≡ length sources.now }
    requires half { (k : ℕ) → k < length halves.now → IsBetween (pos 1) (pos (2 ^ 31 + 1)) (at halves.now k) }
    requires sources { All (IsSourceOf (length operands.now)) sources.now }
    requires range { (f : ℕ) → f < length sources.now → IsInRange (at halves.now f) (at operands.now) (source_at sources.now f) }
    ensures { (f : ℕ) → f < length sources.now → IsStart (at halves.now f) (at operands.now) (source_at sources.now f) (at out.new f) }
{
    for cell in 0..sources.len() {
        out[cell] = start(halves[cell], operands, sources[cell]);
    }
}

impl Plan {
    /// Writes the values of the bare fields, in the order in which they stand in the body: the only ones that fit the operands and satisfy
    /// every equation. There is one operand for each of the constructor's, with 0 for a typed one, each in its range, and one label for
    /// each of the body's, from 0 to 2^33. Takes no memory. `NoSolution` names the first equation, in solving order, that no values satisfy
    /// together with those before it; nothing is said of `out` then.
    pub fn fields(
        &self,
        operands: &[i64],
        labels: &[i64],
        out: &mut [i64],
    ) -> Result<(), NoSolution>
        requires sound { IsSound self.now }
        requires suits { Suits self.now operands.now labels.now }
        requires out { length out.old ≡ length self.now.sources }
        ensures solved { IfOk result (λ _. IsSolution (setting_from self.now.halves operands.now labels.now) self.now.sources self.now.equations self.now.steps (at out.new)) }
        ensures only_fields { IfOk result (λ _. (tokens : Tokens) (c : Constructor) → IsPlanOf tokens c self.now → AreOnlyFields tokens c (at operands.now) (at labels.now) out.new) }
        ensures first_unsolvable { IfErr result (λ e. (tokens : Tokens) (c : Constructor) → IsPlanOf tokens c self.now → IsFirstUnsolvable (setting_of tokens (at operands.now) (at labels.now)) c e.equation) }
        ensures unsolvable { IfErr result (λ e. HasNoSolution (setting_from self.now.halves operands.now labels.now) self.now.sources self.now.equations self.now.steps e.equation) }
    {
        fill(
            self.halves.as_slice(),
            self.sources.as_slice(),
            operands,
            out,
        );
        match run(
            self.hidden.as_slice(),
            self.steps.as_slice(),
            self.equations.as_slice(),
            self.halves.as_slice(),
            operands,
            labels,
            out,
        ) {
            Ok(()) => Ok(()),
            Err(equation) => Err(NoSolution { equation }),
        }
    }
}

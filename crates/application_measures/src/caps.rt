// Numbers that are told up to a cap.
ghost use Rattle.std.specs.Prelude.{◌≡◌, ◌+◌};
ghost use Rattle.sled_model.specs.Measures.{capped};

/// What is told in place of a greater measure.
pub(crate) const CAP: u64 = 1_000_000;

pub(crate) fn capped_sum(a: u64, b: u64) -> u64
    ensures { result ≡ capped (a + b) }
{
    a.saturating_add(b).min(CAP)
}

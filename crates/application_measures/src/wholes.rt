// A pattern, measured over its parts.
ghost use Rattle.std.specs.Prelude.{◌≡◌, List, length, IfOk};
ghost use Rattle.token_bits.specs.Tokens.{AreTokens};
ghost use Rattle.sled_model.specs.declared.pattern.Pattern.{Pattern as PatternOf};
ghost use Rattle.sled_model.specs.declared.pattern.Pattern.TheVariants.{Both, Chain, Either, Label, Loose};
ghost use Rattle.application_measures.specs.Arms.{AreArmMeasures, ArePartsOf, IsPlainLeaf};

use crate::ArmMeasures;
use crate::parts::{Parts, numbered};
use sled_base::NoMemory;
use sled_model::{Pattern, Spec};
use sqlite_items::Boxed;
use std::alloc::Global;

/// The measures of a pattern that neither has parts nor applies a constructor.
pub(crate) fn leaf(alloc: Global, spec: &Spec, pattern: &Pattern) -> Result<ArmMeasures, NoMemory>
    requires tokens { AreTokens spec.now.tokens }
    requires leaf { IsPlainLeaf pattern.now }
    ensures { IfOk result (AreArmMeasures spec.now pattern.now) }
{
    Parts::new(alloc).over(alloc, &spec.tokens, pattern)
}

/// The measures of the pattern of this part, with a label.
pub(crate) fn labelled(
    alloc: Global,
    spec: &Spec,
    label: u32,
    part: ArmMeasures,
) -> Result<ArmMeasures, NoMemory>
    requires { AreTokens spec.now.tokens }
    ensures { IfOk result (λ m. (p : PatternOf) → AreArmMeasures spec.now p part → AreArmMeasures spec.now (Label label p) m) }
{
    let mut parts = Parts::new(alloc);
    parts.add(part)?;
    let whole = Pattern::Label(label, Boxed::new(alloc, Pattern::Operand(0))?);
    parts.over(alloc, &spec.tokens, &whole)
}

/// The measures of the pattern of this part, made loose.
pub(crate) fn loose(alloc: Global, spec: &Spec, part: ArmMeasures) -> Result<ArmMeasures, NoMemory>
    requires { AreTokens spec.now.tokens }
    ensures { IfOk result (λ m. (p : PatternOf) → AreArmMeasures spec.now p part → AreArmMeasures spec.now (Loose p) m) }
{
    let mut parts = Parts::new(alloc);
    parts.add(part)?;
    let whole = Pattern::Loose(Boxed::new(alloc, Pattern::Operand(0))?);
    parts.over(alloc, &spec.tokens, &whole)
}

/// The measures of all of these parts at one place, so many.
pub(crate) fn both(
    alloc: Global,
    spec: &Spec,
    count: usize,
    parts: &Parts,
) -> Result<ArmMeasures, NoMemory>
    requires { AreTokens spec.now.tokens }
    ensures { IfOk result (λ m. (ps : List PatternOf) → length ps ≡ count → ArePartsOf spec.now ps parts.now → AreArmMeasures spec.now (Both ps) m) }
{
    let whole = Pattern::Both(numbered(alloc, count)?);
    parts.over(alloc, &spec.tokens, &whole)
}

/// The measures of any of these parts, so many.
pub(crate) fn either(
    alloc: Global,
    spec: &Spec,
    count: usize,
    parts: &Parts,
) -> Result<ArmMeasures, NoMemory>
    requires { AreTokens spec.now.tokens }
    ensures { IfOk result (λ m. (ps : List PatternOf) → length ps ≡ count → ArePartsOf spec.now ps parts.now → AreArmMeasures spec.now (Either ps) m) }
{
    let whole = Pattern::Either(numbered(alloc, count)?);
    parts.over(alloc, &spec.tokens, &whole)
}

/// The measures of each of these parts where the one before it ends, so many.
pub(crate) fn chain(
    alloc: Global,
    spec: &Spec,
    count: usize,
    parts: &Parts,
) -> Result<ArmMeasures, NoMemory>
    requires { AreTokens spec.now.tokens }
    ensures { IfOk result (λ m. (ps : List PatternOf) → length ps ≡ count → ArePartsOf spec.now ps parts.now → AreArmMeasures spec.now (Chain ps) m) }
{
    let whole = Pattern::Chain(numbered(alloc, count)?);
    parts.over(alloc, &spec.tokens, &whole)
}

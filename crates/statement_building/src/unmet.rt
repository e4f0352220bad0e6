// The conditions that are asked of the pattern of an arm.
ghost use Rattle.std.specs.Prelude.{◌≡◌, ◌≤◌, ◌++◌};
ghost use Rattle.application_measures.specs.Arms.{AreArmMeasures};
ghost use Rattle.constructor_meaning.specs.Unmet.{first_unmet};
ghost use Rattle.sled_model.specs.declared.pattern.Pattern.{Pattern as PatternOf};
ghost use Rattle.statement_building.specs.Conditions as of;

use application_measures::ArmMeasures;
use sled_model::Spec;

/// The first condition on the form of a pattern that is unmet, where these are its measures.
pub(crate) fn unmet_form(_spec: &Spec, measures: &ArmMeasures) -> Option<u8>
    ensures { (p : PatternOf) → AreArmMeasures _spec.now p measures.now → result ≡ first_unmet (of.form_conditions _spec.now p) }
{
    if !measures.form.agree {
        return Some(6);
    }
    if !measures.form.closed || !measures.form.is_closed() {
        return Some(7);
    }
    None
}

/// The first condition on lengths, the weight and the size of a pattern that is unmet, where these are its measures, and the arms before
/// weigh so much.
pub(crate) fn unmet_measure(spec: &Spec, before: u64, measures: &ArmMeasures) -> Option<u8>
    requires { before ≤ 16384 }
    ensures { (p : PatternOf) → AreArmMeasures spec.now p measures.now → result ≡ first_unmet (of.measure_conditions spec.now before p) }
{
    if !measures.form.lengths_within(&spec.tokens, 1, 32) || measures.len > 32 {
        return Some(14);
    }
    if measures.weight > 4096 || measures.size > 256 || before + measures.weight > 16384 {
        return Some(15);
    }
    None
}

//! What holds of the arms that the definitions make. Each function does nothing. Its contract is what it is for.
ghost use Rattle.arm_meaning.specs.All as of;
ghost use Rattle.arm_meaning.specs.Sound.{PatternsAreSound};

/// What the arms of `match all` do: the action of each writes the instance that it matched, its names stand for the operands, and the
/// action names these alone.
pub fn all_laws()
    ensures writes { of.ActionsWriteInstances }
    ensures names { of.NamesAreOperands }
    ensures bound { of.ActionsNameTheirNames }
{}

/// The pattern of an arm whose names are known and whose numbers fit names only what was declared, and its applications fit.
pub fn pattern_laws()
    ensures { PatternsAreSound }
{}

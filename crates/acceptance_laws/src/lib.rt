//! What holds of all that is accepted: a description that lacks nothing is sound and can be read, and a statement over it that lacks nothing
//! can be matched.
//!
//! There are only laws here: functions that do nothing, whose contracts are what they are for. They speak of definitions alone, so that
//! they hold of each text, and not only of one that a program has read.
#![tactic(auto)]

ghost use Rattle.acceptance_laws.specs.Laws.{AcceptedAreSound, StatedCanBeMatched};

/// Declarations that lack nothing make a description that is sound and can be read, where a number of 32 bits counts the lexemes that they
/// are written in.
pub fn accepted_are_sound()
    ensures { AcceptedAreSound }
{}

/// A statement that lacks nothing, over a description that is sound and can be read, can be matched.
pub fn stated_can_be_matched()
    ensures { StatedCanBeMatched }
{}

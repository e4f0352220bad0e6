//! Each constructor of a declaration that meets its conditions can be read, and has a short body.
//!
//! There are only laws here: functions that do nothing, whose contracts are what they are for. What an accepted declaration meets,
//! `IsAccepted` says, and what is carried from declaration to declaration, `HasReadings`. A crate that elaborates cites the lemmas
//! of `proofs/Kept.antt` and `proofs/MadeFits.antt`.
#![tactic(auto)]

ghost use Rattle.constructor_readings.specs.Laws.{AcceptedCanBeRead, AcceptedKeepReadings, TokensKeepReadings, ReadingsAreReadable};

/// Each constructor that an accepted declaration makes can be read: its equations can be solved both ways, its typed operands stand
/// in its body, and no disjunction hides a field or an operand.
pub fn accepted_can_be_read()
    ensures { AcceptedCanBeRead }
{}

/// A description with readings has readings still with the constructors that an accepted declaration makes, and with their type.
pub fn accepted_keep_readings()
    ensures { AcceptedKeepReadings }
{}

/// A description with readings has readings still with more classes and fields.
pub fn tokens_keep_readings()
    ensures { TokensKeepReadings }
{}

/// In a description with readings each result of a constructor's body means one instance, and has 32 bytes at most.
pub fn readings_are_readable()
    ensures { ReadingsAreReadable }
{}

//! Which arms can be matched: each whose pattern has lengths in range, over a description in whose bodies each operand stands once.
//!
//! There are only laws here: functions that do nothing, whose contracts are what they are for. A crate that elaborates cites the lemmas of
//! `proofs/Arms.antt` and `proofs/Accepted.antt`.
#![tactic(auto)]

ghost use Rattle.matchable_arms.specs.Arms.{ArmsAreMatchable};
ghost use Rattle.matchable_arms.specs.Once.{AcceptedKeepOperandsOnce};

/// Whatever the bytes are, each result of an arm has 1 to 32 of them, where each alternative of its pattern does.
pub fn arms_are_matchable()
    ensures { ArmsAreMatchable }
{}

/// In the body of each constructor that an accepted declaration makes each operand stands once.
pub fn accepted_keep_operands_once()
    ensures { AcceptedKeepOperandsOnce }
{}

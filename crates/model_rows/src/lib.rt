//! Worked rows of those definitions of `sled_model` that no other contract cites yet, over one small description, and the laws
//! that make a row tell more: that there is one answer at most. Each function does nothing. Its contract is what it is for.
#![tactic(auto)]

ghost use Rattle.model_rows.specs.InstanceRows.{InstanceRows};
ghost use Rattle.model_rows.specs.EncodingRows.{EncodingRows, EncodingLaws};
ghost use Rattle.model_rows.specs.SolvingRows.{SolvingRows};
ghost use Rattle.model_rows.specs.EventRows.{EventRows, EventLaws};
ghost use Rattle.model_rows.specs.VerdictRows.{VerdictRows, VerdictLaws};

/// What the entries of a result mean, and what the names of an arm stand for.
pub fn instance_rows()
    ensures { InstanceRows }
{}

/// The least bytes of an instance, and why it has none.
pub fn encoding_rows()
    ensures { EncodingRows }
{}

/// The same of slices, of extended operands, of hidden fields that need an order, and of labels behind instances.
pub fn solving_rows()
    ensures { SolvingRows }
{}

/// Whatever the description, an instance has one list of bytes at most, or one fault at most, and never both.
pub fn encoding_laws()
    ensures { EncodingLaws }
{}

/// The addresses of events, and the labels that they place.
pub fn event_rows()
    ensures { EventRows }
{}

/// Whatever the events, what one more of them changes.
pub fn event_laws()
    ensures { EventLaws }
{}

/// Whether an arm is clear, shadowed or twofold.
pub fn verdict_rows()
    ensures { VerdictRows }
{}

/// Whatever the arms, an arm has one verdict at most.
pub fn verdict_laws()
    ensures { VerdictLaws }
{}

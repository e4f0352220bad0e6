// Laws on what statements tell of places. Each function does nothing. Its contract is what it is for.
ghost use Rattle.disassembler.specs.Laws.{OneTaking, TakingOf};

/// Two takings of a statement that can be matched say the same of each place below 2^32, whatever bytes are left there.
pub fn one_taking()
    ensures { OneTaking }
{}

/// A statement that can be matched has a taking.
pub fn taking_of()
    ensures { TakingOf }
{}

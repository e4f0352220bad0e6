// Laws on what names stand for. Each function does nothing. Its contract is what it is for.
ghost use Rattle.name_values.specs.Laws.{OneValueEach, ArmResultsMean};

/// Whatever a result binds at a location: each name has one value, which is a number, or an instance that the description admits and
/// that holds no label's address.
pub fn one_value_each()
    ensures { OneValueEach }
{}

/// Each choice in the first result of a statement that can be matched is of a result of its constructor's body.
pub fn arm_results_mean()
    ensures { ArmResultsMean }
{}

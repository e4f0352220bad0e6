// Laws on what statements mean.
ghost use Rattle.arm_matching.specs.Laws.{FirstOnFront};

/// Whatever the statement that can be matched: its first result on a list of bytes is the first on the first 32 of them. It does nothing:
/// its contract is what it is for.
pub fn first_on_front()
    ensures { FirstOnFront }
{}

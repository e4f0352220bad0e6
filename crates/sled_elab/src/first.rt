// The first of the patterns that a tree stands for.
ghost use Rattle.std.specs.Prelude.{◌≡◌};
ghost use Rattle.sled_elab.specs.Declarations.{first_of as first_in};

use sled_model::{Pattern, PatternList};

/// The first of the patterns, or no bytes where there is none.
pub fn first_of(mut patterns: PatternList) -> Pattern
    ensures { result ≡ first_in patterns }
{
    if patterns.is_empty() {
        Pattern::Empty
    } else {
        patterns.remove(0)
    }
}

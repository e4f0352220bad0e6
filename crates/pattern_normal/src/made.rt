// What constructors make.
ghost use Rattle.std.specs.Prelude.{◌≡◌};
ghost use Rattle.sled_model.specs.Results.{makes as makes_of};

use sled_model::{Constructor, TypeId};

/// Whether the constructor is of the type.
pub(crate) fn makes(constructor: &Constructor, made: TypeId) -> bool
    ensures { result ≡ makes_of made constructor.now.result }
{
    match constructor.result {
        Some(result) => result.0 == made.0,
        None => false,
    }
}

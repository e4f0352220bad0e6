// Why declarations are not accepted.
use sled_base::NoMemory;
use std::alloc::{AllocError, AllocFailed};

/// Why declarations are not accepted.
#[derive(Clone, Copy, Debug, PartialEq, Eq)]
pub enum ElabFault {
    /// The declaration of this number, from 1, is the first that does not meet a condition of the language, and this is the first
    /// condition that it does not meet, 1 to 16. A heading has no number.
    Unmet { declaration: u64, condition: u8 },
    NoMemory,
}

impl From<NoMemory> for ElabFault {
    ghost use Rattle.std.specs.Prelude.{◌≡◌};
    ghost use Rattle.sled_elab.specs.declared.fault.ElabFault.TheVariants.{NoMemory};

    ghost from_gives = { λ _ e. e ≡ NoMemory };

    fn from(_: NoMemory) -> ElabFault {
        ElabFault::NoMemory
    }
}

impl From<AllocError> for ElabFault {
    ghost use Rattle.std.specs.Prelude.{◌≡◌};
    ghost use Rattle.sled_elab.specs.declared.fault.ElabFault.TheVariants.{NoMemory};

    ghost from_gives = { λ _ e. e ≡ NoMemory };

    fn from(_: AllocError) -> ElabFault {
        ElabFault::NoMemory
    }
}

impl<T: Drop> From<AllocFailed<T>> for ElabFault {
    ghost use Rattle.std.specs.Prelude.{◌≡◌};
    ghost use Rattle.sled_elab.specs.declared.fault.ElabFault.TheVariants.{NoMemory};

    ghost from_gives = { λ _ e. e ≡ NoMemory };

    fn from(_: AllocFailed<T>) -> ElabFault {
        ElabFault::NoMemory
    }
}

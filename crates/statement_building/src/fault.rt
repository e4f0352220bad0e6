// Why arms are not accepted.
use sled_base::NoMemory;
use std::alloc::AllocError;

/// Why an arm is not accepted.
#[derive(Clone, Copy, Debug, PartialEq, Eq)]
pub(crate) enum ArmFault {
    /// It does not meet the condition of this number.
    Unmet(u8),
    NoMemory,
}

impl From<NoMemory> for ArmFault {
    ghost use Rattle.std.specs.Prelude.{◌≡◌};
    ghost use Rattle.statement_building.specs.declared.fault.ArmFault.TheVariants.{NoMemory};

    ghost from_gives = { λ _ e. e ≡ NoMemory };

    fn from(_: NoMemory) -> ArmFault {
        ArmFault::NoMemory
    }
}

/// Why a statement is not accepted.
#[derive(Clone, Copy, Debug, PartialEq, Eq)]
pub enum StatementFault {
    /// The arm of this number, from 1, is the first that does not meet a condition of the language, and this is the first condition that it
    /// does not meet, 1 to 16. A skip counts as the arm past the last.
    Unmet { arm: u64, condition: u8 },
    NoMemory,
}

impl From<NoMemory> for StatementFault {
    ghost use Rattle.std.specs.Prelude.{◌≡◌};
    ghost use Rattle.statement_building.specs.declared.fault.StatementFault.TheVariants.{NoMemory};

    ghost from_gives = { λ _ e. e ≡ NoMemory };

    fn from(_: NoMemory) -> StatementFault {
        StatementFault::NoMemory
    }
}

impl From<AllocError> for StatementFault {
    ghost use Rattle.std.specs.Prelude.{◌≡◌};
    ghost use Rattle.statement_building.specs.declared.fault.StatementFault.TheVariants.{NoMemory};

    ghost from_gives = { λ _ e. e ≡ NoMemory };

    fn from(_: AllocError) -> StatementFault {
        StatementFault::NoMemory
    }
}

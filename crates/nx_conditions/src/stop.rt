ghost use Rattle.std.specs.Prelude.{◌≡◌};
ghost use Rattle.nx_conditions.specs.declared.stop.ConditionStop.TheVariants.{Memory};

use std::alloc::AllocError;

/// Why a condition was not read.
#[derive(Clone, Copy, Debug, PartialEq, Eq)]
pub enum ConditionStop {
    /// The bytes are no condition.
    Bad,
    /// Memory ran out.
    Memory,
}

impl From<AllocError> for ConditionStop {
    ghost from_gives = { λ _ e. e ≡ Memory };

    fn from(_: AllocError) -> Self {
        ConditionStop::Memory
    }
}

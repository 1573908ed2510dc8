//! Why a triangulation got no drawing by the shift method, as the type `ShiftFault`.

use std::alloc::AllocError;

/// Why a triangulation got no drawing by the shift method.
#[derive(Clone, Copy, PartialEq, Eq)]
pub enum ShiftFault {
    /// There was not enough memory.
    NoMemory,
}

impl From<AllocError> for ShiftFault {
    ghost use Rattle.std.specs.Prelude.{◌≡◌};
    ghost use Rattle.fpp_shift.specs.declared.fault.ShiftFault.TheVariants.{NoMemory};

    ghost from_gives = { λ _ fault. fault ≡ NoMemory };

    // Converts an allocation error to `NoMemory`.
    fn from(_refused: AllocError) -> ShiftFault {
        ShiftFault::NoMemory
    }
}

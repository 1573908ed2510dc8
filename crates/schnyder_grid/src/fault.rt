//! Why a triangulation with a Schnyder wood got no drawing.

use std::alloc::AllocError;

/// Why a triangulation with a wood got no drawing.
#[derive(Clone, Copy, PartialEq, Eq)]
pub enum SchnyderFault {
    /// There was not enough memory.
    NoMemory,
}

impl From<AllocError> for SchnyderFault {
    ghost use Rattle.std.specs.Prelude.{◌≡◌};
    ghost use Rattle.schnyder_grid.specs.declared.fault.SchnyderFault.TheVariants.{NoMemory};

    ghost from_gives = { λ _ fault. fault ≡ NoMemory };

    // Converts an allocation error to `NoMemory`.
    fn from(_refused: AllocError) -> SchnyderFault {
        SchnyderFault::NoMemory
    }
}

//! Why a list of numbers is not the list of images of a permutation.
ghost use Rattle.std.specs.Prelude.{◌≡◌};
ghost use Rattle.pg_perm.specs.declared.fault.PermFault.TheVariants.{NoMemory};

use std::alloc::AllocError;

/// Why a list is not the images of a permutation, or out of memory. The first kind that applies is named.
#[derive(Clone, Copy, PartialEq, Eq)]
pub enum PermFault {
    /// The least number whose image is not below the length.
    OutOfRange(u32),
    /// The least pair of numbers, by its first and then by its second, that have one image.
    Repeated(u32, u32),
    /// There was not enough memory.
    NoMemory,
}

impl From<AllocError> for PermFault {
    ghost from_gives = { λ _ fault. fault ≡ NoMemory };

    // Converts an allocation error to `NoMemory`.
    fn from(_error: AllocError) -> PermFault {
        PermFault::NoMemory
    }
}

//! Why a triangulation got no canonical order, as the type `OrderFault`.

use std::alloc::AllocError;

/// Why a triangulation got no canonical order.
#[derive(Clone, Copy, PartialEq, Eq)]
pub enum OrderFault {
    /// There was not enough memory.
    NoMemory,
}

impl From<AllocError> for OrderFault {
    ghost use Rattle.std.specs.Prelude.{◌≡◌};
    ghost use Rattle.canon_order.specs.declared.fault.OrderFault.TheVariants.{NoMemory};

    ghost from_gives = { λ _ fault. fault ≡ NoMemory };

    // Converts an allocation error to `NoMemory`.
    fn from(_refused: AllocError) -> OrderFault {
        OrderFault::NoMemory
    }
}

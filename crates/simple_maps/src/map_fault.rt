//! `MapFault`: why rotation lists are no simple map.

use std::alloc::AllocError;

/// Says why lists are no simple map, or that there was not enough memory. List 0 is that of vertex 0.
///
/// The first kind that applies is named, and of it the least first and then the least second vertex.
#[derive(Clone, Copy, PartialEq, Eq)]
pub enum MapFault {
    /// The first vertex's list holds the second number, which is no vertex.
    OutOfRange(u16, u16),
    /// The vertex's list holds itself.
    Loop(u16),
    /// The first vertex's list holds the second at least twice.
    Repeated(u16, u16),
    /// The first vertex's list holds the second, whose list does not hold the first.
    OneSided(u16, u16),
    /// There was not enough memory.
    NoMemory,
}

impl From<AllocError> for MapFault {
    ghost use Rattle.std.specs.Prelude.{◌≡◌};
    ghost use Rattle.simple_maps.specs.declared.map_fault.MapFault.TheVariants.{NoMemory};

    ghost from_gives = { λ _ fault. fault ≡ NoMemory };

    // Converts an allocation error to `NoMemory`.
    fn from(_refused: AllocError) -> MapFault {
        MapFault::NoMemory
    }
}

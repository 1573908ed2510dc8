//! `Refusal`: the conditions that a record may break, in order, and `Unserved`: a refusal, or out of memory.

use map_lists::VertexId;
use simple_maps::MapFault;
use std::alloc::AllocError;

/// A condition that a record breaks. They stand in the order in which they are tested, and each job has some of
/// them. Vertices are numbered from 0, and the least are named.
#[derive(Clone, Copy, PartialEq, Eq)]
pub enum Refusal {
    /// The first vertex's list holds the second number, which is no vertex.
    OutOfRange(u16, u16),
    /// The vertex's list holds itself.
    Loop(u16),
    /// The first vertex's list holds the second at least twice.
    Repeated(u16, u16),
    /// The first vertex's list holds the second, whose list does not hold the first.
    OneSided(u16, u16),
    /// The map or the graph has only this number of vertices, too few for the job.
    Small(u16),
    /// The map has this genus, which is above zero.
    Genus(u32),
    /// The map has two components or more.
    NotConnected,
    /// This is the least cut vertex.
    CutVertex(VertexId),
    /// These two, the lesser first, are the least separating pair.
    SeparatingPair(VertexId, VertexId),
    /// Four darts over four vertices do not walk the outer face, that of the dart from vertex 0 to its first neighbour.
    OuterNotQuad,
    /// The face of the dart is another than the outer one, and is not walked by three darts.
    NotTriangle(VertexId, VertexId),
    /// The three vertices, which rise, are adjacent in pairs, and the three edges bound no face.
    SeparatingTriangle(VertexId, VertexId, VertexId),
    /// Each vertex lies on the outer face.
    NoInner,
}

/// Why a record is not served.
#[derive(Clone, Copy, PartialEq, Eq)]
pub enum Unserved {
    /// It is refused for this condition.
    Refused(Refusal),
    /// There was not enough memory.
    NoMemory,
}

impl From<AllocError> for Unserved {
    ghost use Rattle.std.specs.Prelude.{◌≡◌};
    ghost use Rattle.refusals.specs.declared.conditions.Unserved.TheVariants.{NoMemory};

    ghost from_gives = { λ _ unserved. unserved ≡ NoMemory };

    // Converts an allocation error to `NoMemory`.
    fn from(_refused: AllocError) -> Unserved {
        Unserved::NoMemory
    }
}

impl From<MapFault> for Unserved {
    ghost use Rattle.std.specs.Prelude.{◌≡◌};
    ghost use Rattle.refusals.specs.Conditions.{unserved_for};

    ghost from_gives = { λ fault unserved. unserved ≡ unserved_for fault };

    // Converts the fault by which lists are no map to the condition that they break.
    fn from(fault: MapFault) -> Unserved {
        match fault {
            MapFault::OutOfRange(v, u) => Unserved::Refused(Refusal::OutOfRange(v, u)),
            MapFault::Loop(v) => Unserved::Refused(Refusal::Loop(v)),
            MapFault::Repeated(v, u) => Unserved::Refused(Refusal::Repeated(v, u)),
            MapFault::OneSided(v, u) => Unserved::Refused(Refusal::OneSided(v, u)),
            MapFault::NoMemory => Unserved::NoMemory,
        }
    }
}

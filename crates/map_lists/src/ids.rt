//! The ids of vertices, darts and faces: `VertexId`, `DartId`, `FaceId`.

/// A vertex of a map, by its number from 0, which is below the map's number of vertices.
#[derive(Clone, Copy, PartialEq, Eq)]
pub struct VertexId(pub u16);

/// A dart of a map. Its number is below twice the sum of the map's edges and spare edges, so it can
/// index a list of marks; nothing else is promised of it.
#[derive(Clone, Copy, Default, PartialEq, Eq)]
pub struct DartId(pub u32);

/// A face of a map, by its number from 0.
#[derive(Clone, Copy, PartialEq, Eq)]
pub struct FaceId(pub u32);

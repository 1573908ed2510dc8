//! Laws of edges added to maps of genus zero, and of edges kept: chords, ears, completion to a triangulation. Each is
//! the contract of a function that does nothing, and speaks of all maps.

ghost use Rattle.plane_laws.specs.Added.{EdgeInFace, EdgeBetween};
ghost use Rattle.plane_laws.specs.Chords.{CornerChord, EarCut, OneChord, SomeEar};
ghost use Rattle.plane_laws.specs.MapEditsCompleted.{Completion};
ghost use Rattle.plane_laws.specs.Kept.{KeptEdges};
ghost use Rattle.plane_laws.specs.OuterFaces.{OuterEar, OuterLeaf};
ghost use Rattle.plane_laws.specs.Smoothed.{VertexSmoothed};
ghost use Rattle.plane_laws.specs.WithEdge.{WithEdge, WithEdgeAfter};

/// States the law that an edge may be put between any two vertices that are not adjacent, at any places of their lists.
/// The lists with it are a simple map; without it they are the old ones.
pub fn with_edge()
    ensures { WithEdge }
{}

/// States the law that an edge may be put between two corners of vertices that are not adjacent. Each corner is named
/// by the entry before it. Elsewhere each entry keeps its successor.
pub fn with_edge_after()
    ensures { WithEdgeAfter }
{}

/// States the law that an edge between two corners of one face of a map of genus zero leaves the genus zero. There is
/// one face more, and there are as many components.
pub fn edge_in_face()
    ensures { EdgeInFace }
{}

/// States the law that an edge between two components of a map of genus zero gives one of genus zero with one face and
/// one component less.
pub fn edge_between()
    ensures { EdgeBetween }
{}

/// States the law that a simple map restricted to some of its edges is simple, and of genus zero where the map is. The
/// successor of a kept entry is its old successor or, if that was deleted and the next one was not, the next one.
pub fn kept_edges()
    ensures { KeptEdges }
{}

/// States the law on a vertex of a map of genus zero that has exactly two neighbours, which are not adjacent. The map
/// in which it is taken out of its edge, so that they are adjacent, has genus zero.
pub fn vertex_smoothed()
    ensures { VertexSmoothed }
{}

/// States the law on four successive vertices of a face of a map of genus zero. The first and the third can be joined,
/// or the second and the fourth.
pub fn one_chord()
    ensures { OneChord }
{}

/// States the law on a face of a map of genus zero that comes back to a vertex after three steps, and leaves it by
/// another edge. The vertices before and after can be joined.
pub fn corner_chord()
    ensures { CornerChord }
{}

/// States the law on a face that is no triangle, in a connected map of genus zero with at least three vertices. It has
/// an ear at one of any three successive darts. At an ear the vertices before and after can be joined.
pub fn some_ear()
    ensures { SomeEar }
{}

/// States the law of an ear of a face, a vertex whose neighbours on the face can be joined. Cut off by the edge that
/// joins them, it is a triangle, and all triangles stay.
pub fn ear_cut()
    ensures { EarCut }
{}

/// States the law that each simple map of genus zero with at least three vertices can be completed. There are lists
/// with 3n - 6 edges that are a map of genus zero and keep the order of the old entries.
pub fn completion()
    ensures { Completion }
{}

/// States the law on a face of a map of genus zero that meets each vertex once. Beside each of its darts there is an
/// ear: a vertex with no neighbour between those before and after it on the face.
pub fn outer_ear()
    ensures { OuterEar }
{}

/// States the law on a face of a map of genus zero that meets each vertex once. Away from each of its darts there is a
/// leaf. That is a dart off the face, such that each other dart of its own face has that face on its other side.
pub fn outer_leaf()
    ensures { OuterLeaf }
{}

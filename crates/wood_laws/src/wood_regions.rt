//! Laws of Schnyder's regions (1990): nested regions, and coordinates by regions and paths. Region c of an inner
//! vertex is bounded by its paths of the two other colours and the outer edge between their roots. Each law is the
//! contract of a function that does nothing.

ghost use Rattle.wood_laws.specs.WoodRegionsLaws.{InsideIsKnown, RegionsNested, DrawnAtCoordinates};

/// States the law that a face lies inside the closed path of a region, or not, whatever chain of faces leads to it from
/// the outer face. Some chain leads to each face.
pub fn inside_is_known()
    ensures { InsideIsKnown }
{}

/// States the law that where an inner vertex lies in a region of another, its own region of that colour is part of it.
pub fn regions_nested()
    ensures { RegionsNested }
{}

/// States the law that an inner vertex stands in the drawing by Schnyder's coordinates where its regions and paths have
/// it. Its coordinate c is how many more vertices region c has than the path of the colour before. The three together
/// are one less than the number of vertices.
pub fn drawn_at_coordinates()
    ensures { DrawnAtCoordinates }
{}

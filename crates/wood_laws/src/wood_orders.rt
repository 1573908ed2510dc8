//! Laws: each Schnyder wood (1990) of a triangulation is the wood of a canonical order, and so the laws of regions
//! hold of each wood. Each law is the contract of a function that does nothing but call those on which it stands.

ghost use Rattle.wood_laws.specs.WoodOrdersLaws.{ArrangedIsOrder, CoordinatesInWood, InsideOfWood, NestedInWood, OrderOfWood, ParentsOfArranged, SomeArranged};

/// States the law that a list of all vertices, roots one and two first and root three last, is a canonical order if its
/// parents stand as follows. For each inner vertex those of colours one and two come before it, and that of colour
/// three after it.
pub fn arranged_is_order()
    ensures { ArrangedIsOrder }
{}

/// States the law that for each Schnyder wood the vertices can be listed as follows. Each inner vertex has its parents
/// of colours one and two before it, and that of colour three after it.
pub fn some_arranged()
    ensures { SomeArranged }
{}

/// States the law on a Schnyder wood and a list with each inner vertex after its parents of colours one and two and
/// before that of colour three. The wood of this order has exactly the same parents.
pub fn parents_of_arranged()
    ensures { ParentsOfArranged }
{}

/// States the law that each Schnyder wood is the wood of a canonical order.
pub fn order_of_wood()
    ensures { OrderOfWood }
{
    arranged_is_order();
    some_arranged();
    parents_of_arranged();
    order_drawings::order_runs::order_is_run();
}

/// States the law that a face lies inside the closed path of a region, or not, whatever chain of faces leads to it from
/// the outer face. Some chain leads to each face.
pub fn inside_of_wood()
    ensures { InsideOfWood }
{
    order_of_wood();
    crate::wood_regions::inside_is_known();
}

/// States the law that where an inner vertex lies in a region of another, its own region of that colour is part of it.
pub fn nested_in_wood()
    ensures { NestedInWood }
{
    order_of_wood();
    crate::wood_regions::regions_nested();
}

/// States the law that an inner vertex has a coordinate for each colour: how many more vertices its region has than its
/// path of the colour before. The three together are one less than the number of vertices.
pub fn coordinates_in_wood()
    ensures { CoordinatesInWood }
{
    arranged_is_order();
    some_arranged();
    parents_of_arranged();
    order_drawings::schnyder_drawings::some_wood_points();
    crate::wood_regions::drawn_at_coordinates();
}

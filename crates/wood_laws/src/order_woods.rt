//! Law: the parents of a canonical order are a Schnyder wood (1990).

ghost use Rattle.wood_laws.specs.Woods.{WoodOfOrder};

/// States the law that the parents that a canonical order gives are a Schnyder wood of the map. Each vertex but the
/// roots has three, by different edges, none of them the root of another colour. They never lead back to a vertex by
/// one colour, and stand in order round each such vertex.
pub fn wood_of_order()
    ensures { WoodOfOrder }
{}

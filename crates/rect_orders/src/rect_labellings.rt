//! Edge labellings of maps whose outer face goes along four vertices (Kant, He 1997), from rectangular orders. Each law
//! is the contract of a function that does nothing.

ghost use Rattle.rect_orders.specs.Labellings.{LabelsOfOrder, BoxesByLabelling};

/// States the law that the labels of edge ends in the construction sequence of a rectangular order are a regular edge
/// labelling of the map.
pub fn labels_of_order()
    ensures { LabelsOfOrder }
{}

/// States the law that the boxes of a rectangular order come of an edge labelling. Along a run (horizontal edge) the
/// right side of one is the left side of the other. Along a rise (vertical) one's upper side is the other's lower side.
pub fn boxes_by_labelling()
    ensures { BoxesByLabelling }
{}

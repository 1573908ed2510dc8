//! Laws: an st-order and its dual numbers make a valid visibility drawing, and the dual numbering is unique.

ghost use Rattle.bipolar.specs.Laws.{DualNumbersAreBars, NumberingIsOne};

/// States the law that the faces of a connected map of genus zero have just one numbering from left to right along an
/// st-order. Its numbers are below the number of faces.
pub fn numbering_is_one()
    ensures { NumberingIsOne }
{}

/// States the law that an st-order and its dual numbers make valid bars. Each vertex is drawn at the height of its
/// rank, and each edge in the column of its dual number. Each bar reaches over the columns of its edges.
pub fn dual_numbers_are_bars()
    ensures { DualNumbersAreBars }
{}

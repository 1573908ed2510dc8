//! A law on the points of the shift method of de Fraysseix, Pach and Pollack (1990), over a construction sequence, as
//! the contract of a function that does nothing. Vertices are numbered as the sequence places them; all coordinates are
//! naturals.

ghost use Rattle.fpp_shift.specs.Laws.{OpenedArea};

/// States the law that a face with six naturals kept, so that its area is a sum of their products, is counterclockwise.
pub fn opened_area()
    ensures { OpenedArea }
{}

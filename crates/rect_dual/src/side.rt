//! `Side`: left or lower side of a box, and how new vertices get their line on that side.
ghost use Rattle.std.specs.Prelude.{◌≡◌, ◌<◌, ◌≤◌, ◌+◌, ◌^◌};

/// A side of a box. Left sides are numbered along the contour backwards, lower sides along it forwards.
#[derive(Clone, Copy)]
pub enum Side {
    /// The left side, x.
    Left,
    /// The lower side, y.
    Low,
}

impl Side {
    ghost use Rattle.rect_dual.specs.SidesOfBoxes.{gets_line, place_in, second_line};

    // Says whether a new vertex gets a line of its own on this side. Its turn is at a horizontal edge if `run` is set,
    // else at a vertical one.
    pub(crate) fn gets_line(self, run: bool) -> bool
        ensures { result ≡ gets_line self run }
    {
        match self {
            Side::Left => !run,
            Side::Low => run,
        }
    }

    // Returns the index in a row of the vertex whose line the new vertex takes or follows, with the turn at index `c`.
    pub(crate) fn place_in(self, c: usize) -> usize
        requires { c + 1 < 2 ^ 64 }
        ensures place { result ≡ place_in self c }
        ensures bound { result ≤ c + 1 }
    {
        match self {
            Side::Left => c + 1,
            Side::Low => c,
        }
    }

    // Returns the line of the second vertex of the base. The first has line 0.
    pub(crate) fn second_line(self) -> u16
        ensures line { result ≡ second_line self }
        ensures bound { result < 2 }
    {
        match self {
            Side::Left => 0,
            Side::Low => 1,
        }
    }
}

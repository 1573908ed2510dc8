//! The direction of a change of counts: whether an interval of the contour comes or goes.
ghost use Rattle.convex_orders.specs.Ways.{CanMove, IsMoved};

/// Whether a part of a contour comes or goes.
#[derive(Copy, Clone, Drop)]
pub(crate) enum Way {
    /// It comes: counts rise.
    Comes,
    /// It goes: counts fall.
    Goes,
}

impl Way {
    /// Returns `count` plus one where the interval comes, or minus one where it goes.
    pub(crate) fn moved(self, count: u16) -> u16
        requires { CanMove self count 1 }
        ensures { IsMoved self count 1 result }
    {
        match self {
            Way::Comes => count + 1,
            Way::Goes => count - 1,
        }
    }
}

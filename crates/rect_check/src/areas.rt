//! Whether the areas of the rectangles sum to that of the rectangle from (0, 0) to their greatest sides.
ghost use Rattle.std.specs.Prelude.{◌≡◌, ◌+◌, ◌<◌, ◌↔◌, IsTrue, length, take, ◌≤ℤ◌, ◌-ℤ◌, ◌*ℤ◌, pos};
ghost use Rattle.std.specs.Int.{int_max};
ghost use Rattle.drawings.specs.Duals.{IsSpan, area_at, area_of, greatest as the_greatest};
ghost use Rattle.rect_check.specs.Loops.{IsLength};
ghost use Rattle.rect_check.specs.Verdicts.{DoFill};

use crate::rects::{Rects, number, number_in};
use half_edges::VertexId;
use pg_plane::Ints;

// Returns the product of the lengths `u` and `v`.
fn product(u: i32, v: i32) -> i64
    requires u { IsLength u }
    requires v { IsLength v }
    ensures value { result ≡ u *ℤ v }
    ensures low { pos 0 ≤ℤ result }
    ensures high { result ≤ℤ pos 4294836225 }
{
    i64::from(u) * i64::from(v)
}

// Returns `q` less `p`, the length of an interval within 0 to n - 2. Only the contract needs `n`.
fn distance(n: u16, p: i32, q: i32) -> i32
    requires { IsSpan n p q }
    ensures value { result ≡ q -ℤ p }
    ensures length { IsLength result }
{
    q - p
}

// Returns the greater of `u` and `v`.
fn greater(u: i32, v: i32) -> i32
    ensures { result ≡ int_max u v }
{
    u.max(v)
}

// Returns the greatest number of `list`, or 0 if all are negative or there is none.
pub(crate) fn greatest(list: &Ints) -> i32
    ensures { result ≡ the_greatest list.now }
{
    let mut best = 0;
    for i in 0..list.len() {
        best = greater(best, number_in(list, i));
    }
    best
}

impl Rects<'_> {
    // Returns the area of the rectangle of `v`.
    fn area(&self, v: VertexId) -> i64
        requires vertex { v.0 < length self.now.map.now.lists }
        ensures area { result ≡ area_at self.now.fig.now v.0 }
        ensures low { pos 0 ≤ℤ result }
        ensures high { result ≤ℤ pos 4294836225 }
    {
        let n = self.map.n();
        let wide = distance(n, number(&self.fig.x1, v), number(&self.fig.x2, v));
        let tall = distance(n, number(&self.fig.y1, v), number(&self.fig.y2, v));
        product(wide, tall)
    }

    // Returns the sum of the areas of all rectangles.
    fn total_area(&self) -> i64
        ensures { result ≡ area_of self.now.fig.now (length self.now.map.now.lists) }
    {
        let rects = *self;
        let mut total = 0;
        for v in 0..rects.map.n() {
            total += rects.area(VertexId(v));
        }
        total
    }

    // Says whether the areas of the rectangles sum to that of the rectangle from (0, 0) to their greatest sides.
    pub(crate) fn do_fill(&self) -> bool
        ensures { IsTrue result ↔ DoFill self.now.map.now.lists self.now.fig.now }
    {
        let span = i64::from(greatest(&self.fig.x2)) * i64::from(greatest(&self.fig.y2));
        self.total_area() == span
    }
}

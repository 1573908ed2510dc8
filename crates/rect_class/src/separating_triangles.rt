//! The least separating triangle: three edges of a map that bound no face.
ghost use Rattle.std.specs.Prelude.{◌≡◌, ◌⊎◌, ◌+◌, ◌<◌, ◌↔◌, ℕ, List, false, length, slice_index, IsTrue, Some, MatchOption};
ghost use Rattle.std.specs.Bool.{OnTrue};
ghost use Rattle.map_theory.specs.Maps.{HasDart, list_of, follows};
ghost use Rattle.plane_peeling.specs.Restricted.{IsFaceOfThree};
ghost use Rattle.half_edges.specs.Map.{IsLive, dart_at};
ghost use Rattle.vertex_rounds.specs.Least.{IsLeast, IsLeastTriple};
ghost use Rattle.vertex_rounds.specs.Rounds.{HoldsAt, dart_of};
ghost use Rattle.rect_class.specs.RectMaps.{IsSeparating, NoneSeparating};
ghost use Rattle.rect_class.specs.Loops.{HasThird, AreSides};

use crate::upper_neighbours::Upper;
use half_edges::{DartId, VertexId};
use vertex_rounds::{first_dart, least_head};

// An edge by one of its darts, `d`, which goes from `a` to `b`.
#[derive(Clone, Copy)]
struct Edge<'a> {
    near: Upper<'a>,
    d: DartId,
    a: VertexId,
    b: VertexId,
    ghost dart: { dart_at near.map.now d.0 ≡ Some (a.0, b.0) },
}

// An edge with the third vertices of the faces on its left and on its right, where these are triangles.
#[derive(Clone, Copy)]
struct Wings<'a> {
    edge: Edge<'a>,
    left: VertexId,
    right: VertexId,
    ghost sides: { AreSides edge.near.map.now.lists edge.a.0 edge.b.0 left.0 right.0 },
}

impl Wings<'_> {
    // Says whether the edge bounds a triangular face with `c`, on one side or the other.
    fn is_bounding(&self, c: VertexId) -> bool
        ensures { IsTrue result ↔ (IsFaceOfThree self.now.edge.near.map.now.lists self.now.edge.a.0 self.now.edge.b.0 c.0
            ⊎ IsFaceOfThree self.now.edge.near.map.now.lists self.now.edge.b.0 self.now.edge.a.0 c.0) }
    {
        (self.left.0 == c.0 && self.edge.is_face(c))
            || (self.right.0 == c.0 && self.edge.is_turned_face(c))
    }

    // Says whether `a` < `b` < `c`, the three are adjacent in pairs, and they bound no face.
    fn is_separating(&self, c: VertexId) -> bool
        requires { c.0 < length self.now.edge.near.map.now.lists }
        ensures { IsTrue result ↔ IsSeparating self.now.edge.near.map.now.lists self.now.edge.a.0 self.now.edge.b.0 c.0 }
    {
        let near = self.edge.near;
        let (a, b) = (self.edge.a, self.edge.b);
        a.0 < b.0
            && b.0 < c.0
            && !self.is_bounding(c)
            && near.are_adjacent(b, c)
            && near.are_adjacent(a, c)
    }
}

impl Edge<'_> {
    // Says whether the face of the dart is the triangle of `a`, `b` and `c`.
    fn is_face(&self, c: VertexId) -> bool
        ensures { IsTrue result ↔ IsFaceOfThree self.now.near.map.now.lists self.now.a.0 self.now.b.0 c.0 }
    {
        let map = self.near.map;
        let second = map.face_step(self.d);
        let third = map.face_step(second);
        let fourth = map.face_step(third);
        map.head(second).0 == c.0 && map.head(third).0 == self.a.0 && map.head(fourth).0 == self.b.0
    }

    // Says whether the face of the twin is the triangle of `b`, `a` and `c`.
    fn is_turned_face(&self, c: VertexId) -> bool
        ensures { IsTrue result ↔ IsFaceOfThree self.now.near.map.now.lists self.now.b.0 self.now.a.0 c.0 }
    {
        let twin = Edge {
            near: self.near,
            d: self.near.map.twin(self.d),
            a: self.b,
            b: self.a,
        };
        twin.is_face(c)
    }

    // Returns the third vertex of the face on the left of the dart: the head of the next dart along that face.
    fn left(&self) -> VertexId
        ensures { follows self.now.near.map.now.lists self.now.b.0 self.now.a.0 ≡ result.0 }
    {
        let map = self.near.map;
        map.head(map.face_step(self.d))
    }

    // Returns the third vertex of the face on the right of the dart: the head of the next dart round `a`.
    fn right(&self) -> VertexId
        ensures { follows self.now.near.map.now.lists self.now.a.0 self.now.b.0 ≡ result.0 }
    {
        let map = self.near.map;
        map.head(map.next(self.d))
    }

    // Says whether `a` < `b`, and the head of dart `e` is greater than both and makes a separating triangle with them.
    fn leads_to_third(&self, e: DartId) -> bool
        requires { IsLive self.now.near.map.now e.0 }
        ensures { IsTrue result ↔ IsSeparating self.now.near.map.now.lists self.now.a.0 self.now.b.0 (dart_of self.now.near.map.now e.0).1 }
    {
        let wings = Wings {
            edge: *self,
            left: self.left(),
            right: self.right(),
        };
        wings.is_separating(self.near.map.head(e))
    }

    // Returns the end of the edge whose list is the shorter.
    fn shorter_end(&self) -> VertexId
        ensures { (result.0 ≡ self.now.a.0) ⊎ (result.0 ≡ self.now.b.0) }
    {
        if self.near.map.degree(self.a) <= self.near.map.degree(self.b) {
            self.a
        } else {
            self.b
        }
    }

    // Returns the least vertex that makes a separating triangle with `a` and `b`, where `a` < `b` and it is greater
    // than both, or `None` if none does. It goes over the shorter list of `a` and `b`.
    fn least_third(&self) -> Option<VertexId>
        ensures { MatchOption result ((c : ℕ) → ¬ IsSeparating self.now.near.map.now.lists self.now.a.0 self.now.b.0 c)
            (λ c. IsLeast (IsSeparating self.now.near.map.now.lists self.now.a.0 self.now.b.0) c.0) }
    {
        let w = self.shorter_end();
        least_head(self.near.map, w, |e| self.leads_to_third(e))
    }
}

impl Upper<'_> {
    // Says whether dart `d` goes from the least to the second vertex of a separating triangle.
    fn is_second(&self, d: DartId) -> bool
        requires { IsLive self.now.map.now d.0 }
        ensures { IsTrue result ↔ HoldsAt self.now.map.now (HasThird self.now.map.now.lists) d.0 }
    {
        let a = self.map.tail(d);
        let b = self.map.head(d);
        let near = *self;
        a.0 < b.0 && Edge { near, d, a, b }.least_third().is_some()
    }

    // Returns the least vertex that makes a separating triangle with `a` and `b`, where `a` < `b` and it is greater
    // than both. There has to be one.
    fn third_between(&self, a: VertexId, b: VertexId) -> VertexId
        requires { HasThird self.now.map.now.lists a.0 b.0 }
        ensures { IsLeast (IsSeparating self.now.map.now.lists a.0 b.0) result.0 }
    {
        let near = *self;
        match self.map.dart_of(a, b) {
            Some(d) => {
                let edge = Edge { near, d, a, b };
                match edge.least_third() {
                    Some(c) => c,
                    None => a,
                }
            }
            None => a,
        }
    }

    // Returns the least separating triangle, by its rising vertices, if there is one.
    pub(crate) fn first_separating(&self) -> Option<(VertexId, VertexId, VertexId)>
        ensures { MatchOption result (NoneSeparating self.now.map.now.lists)
            (λ t. IsLeastTriple (IsSeparating self.now.map.now.lists) t.0.0 t.1.0 t.2.0) }
    {
        match first_dart(self.map, |d| self.is_second(d)) {
            Some((a, b)) => Some((a, b, self.third_between(a, b))),
            None => None,
        }
    }
}

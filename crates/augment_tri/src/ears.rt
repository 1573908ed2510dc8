//! Ears of faces: finds a corner of a face that is no triangle where an edge may be added, and cuts it off.
ghost use Rattle.std.specs.Prelude.{◌≡◌, ◌+◌, ◌<◌, ◌≤◌, ◌⊎◌, ◌↔◌, ◌==◌, if◌then◌else◌, ℕ, Some, IsTrue, MatchBool};
ghost use Rattle.map_theory.specs.Maps.{IsPlane, vertex_count, follows};
ghost use Rattle.plane_laws.specs.Laws.{IsTriangle};
ghost use Rattle.plane_laws.specs.Chords.{CanJoin, IsEar};
ghost use Rattle.half_edges.specs.Map.{Map, IsHalfMap, IsLive, dart_at};
ghost use Rattle.augment_tri.specs.Growing.{IsCovered, IsCutEar, IsFillable, IsGrown, IsNear};

use half_edges::{Corner, DartId, HalfMap, VertexId};

// Says whether the face of dart `d` of `map` is a triangle: three face steps from `d` lead back to it.
pub(crate) fn is_triangle(map: &HalfMap, d: DartId) -> bool
    requires { IsLive map.now d.0 }
    ensures { (a b : ℕ) → dart_at map.now d.0 ≡ Some (a, b) → IsTrue result ↔ IsTriangle map.now.lists (a, b) }
{
    let third = map.face_step(map.face_step(map.face_step(d)));
    third.0 == d.0
}

// Says whether `u` and `v` are distinct and not adjacent, so that an edge may join them. It searches the list of `u`.
fn can_join(map: &HalfMap, u: VertexId, v: VertexId) -> bool
    requires u_in { u.0 < vertex_count map.now.lists }
    requires v_in { v.0 < vertex_count map.now.lists }
    ensures { MatchBool result (CanJoin map.now.lists u.0 v.0) (¬ CanJoin map.now.lists u.0 v.0) }
{
    if u.0 == v.0 {
        return false;
    }
    match map.dart_of(u, v) {
        Some(_) => false,
        None => true,
    }
}

// Four consecutive vertices along a face of `map`, from `a` over `b` and `c` to `x`.
#[derive(Clone, Copy)]
struct FacePath<'a> {
    map: &'a HalfMap,
    a: VertexId,
    b: VertexId,
    c: VertexId,
    x: VertexId,
    ghost a_in: { a.0 < vertex_count map.now.lists },
    ghost b_in: { b.0 < vertex_count map.now.lists },
    ghost c_in: { c.0 < vertex_count map.now.lists },
    ghost x_in: { x.0 < vertex_count map.now.lists },
}

impl FacePath<'_> {
    // Returns true only if an edge may join `a` and `c`, and false only if one may join `b` and `x`; one of these must
    // hold. It searches the shorter one of the lists of `b` and `c`.
    fn is_first(&self) -> bool
        requires { CanJoin self.now.map.now.lists self.now.a.0 self.now.c.0 ⊎ CanJoin self.now.map.now.lists self.now.b.0 self.now.x.0 }
        ensures { MatchBool result (CanJoin self.now.map.now.lists self.now.a.0 self.now.c.0) (CanJoin self.now.map.now.lists self.now.b.0 self.now.x.0) }
    {
        let map = self.map;
        if map.degree(self.b) < map.degree(self.c) {
            !can_join(map, self.b, self.x)
        } else {
            can_join(map, self.c, self.a)
        }
    }
}

// Returns the first of two consecutive darts of the face of `d` whose outer ends are distinct and not adjacent. An edge
// can cut this ear off. The dart is `d` or one of the next two. The face must be no triangle, `map` as `fill` needs it.
fn ear_near(map: &HalfMap, d: DartId) -> DartId
    requires fillable { IsFillable map.now }
    requires live { IsLive map.now d.0 }
    requires large { (a b : ℕ) → dart_at map.now d.0 ≡ Some (a, b) → ¬ IsTriangle map.now.lists (a, b) }
    ensures { (a b : ℕ) → dart_at map.now d.0 ≡ Some (a, b) → (s : ℕ) × (t : ℕ) × (dart_at map.now result.0 ≡ Some (s, t)) × IsEar map.now.lists s t × IsNear map.now.lists a b s t }
{
    let e = map.face_step(d);
    let f = map.face_step(e);
    let a = map.tail(d);
    let b = map.tail(e);
    let c = map.tail(f);
    let x = map.head(f);
    let row = FacePath { map, a, b, c, x };
    if x.0 == a.0 {
        f
    } else if row.is_first() {
        d
    } else {
        e
    }
}

// Adds to `map`, which has room, an edge that cuts off the ear a, b, c at dart `d`. Returns the new dart from a to c.
fn cut_ear(map: &mut HalfMap, d: DartId) -> DartId
    requires spare { 1 ≤ map.old.spare }
    requires live { IsLive map.old d.0 }
    requires ear { (a b : ℕ) → dart_at map.old d.0 ≡ Some (a, b) → IsEar map.old.lists a b }
    ensures cut { (a b : ℕ) → dart_at map.old d.0 ≡ Some (a, b) → IsCutEar map.old.lists map.new.lists a b }
    ensures dart { (a b : ℕ) → dart_at map.old d.0 ≡ Some (a, b) → dart_at map.new result.0 ≡ Some (a, follows map.old.lists b a) }
    ensures live { IsLive map.new result.0 }
    ensures spare { map.new.spare + 1 ≡ map.old.spare }
    ensures ids { (e w z : ℕ) → dart_at map.old e ≡ Some (w, z) → dart_at map.new e ≡ Some (w, z) }
    ensures known { IsHalfMap map.new }
{
    let before = map.prev(d);
    let back = map.twin(map.face_step(d));
    map.add_edge(Corner::After(before), Corner::After(back))
}

// Returns where to continue in the face of `d` after `new` cut off the ear at `ear`: `new` if `ear` is `d`, else `d`.
fn dart_after_cut(d: DartId, ear: DartId, new: DartId) -> DartId
    ensures { result.0 ≡ (if ear.0 == d.0 then new.0 else d.0) }
{
    if ear.0 == d.0 { new } else { d }
}

// Cuts an ear (two consecutive darts whose outer ends an edge may join) off the face of `d`, no triangle. `map` is as
// `fill` needs it. Returns the dart at which to continue: the new one where the ear began at `d`, or else `d`.
pub(crate) fn cut_near(map: &mut HalfMap, d: DartId) -> DartId
    requires fillable { IsFillable map.old }
    requires live { IsLive map.old d.0 }
    requires large { (a b : ℕ) → dart_at map.old d.0 ≡ Some (a, b) → ¬ IsTriangle map.old.lists (a, b) }
    ensures fillable { IsFillable map.new }
    ensures grown { IsGrown map.old map.new }
    ensures spare { map.new.spare + 1 ≡ map.old.spare }
    ensures live { IsLive map.new result.0 }
    ensures covered { (first : Map) (k a b : ℕ) → dart_at map.old d.0 ≡ Some (a, b) → IsCovered first k map.old.lists a b
        → (v u : ℕ) → dart_at map.new result.0 ≡ Some (v, u) → IsCovered first k map.new.lists v u }
{
    let ear = ear_near(map, d);
    let new = cut_ear(map, ear);
    dart_after_cut(d, ear, new)
}

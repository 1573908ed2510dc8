//! The public calls that find a canonical order: they peel vertices off the outer cycle, the order's last one first.
ghost use Rattle.std.specs.Prelude.{◌≡◌, ◌≢◌, ◌<◌, ℕ, false, [], reverse, length, All, AllPairs, Some, replicate, OnOk, IfOk, ◌≤◌, ◌∷◌, map, drop, ◌*◌};
ghost use Rattle.map_theory.specs.Maps.{HasDart};
ghost use Rattle.plane_laws.specs.Triangulations.{IsTriangulation};
ghost use Rattle.half_edges.specs.Map.{IsLive, dart_at};
ghost use Rattle.canon_order.specs.Marks.{is_set, IsUnmarked};
ghost use Rattle.canon_order.specs.Orders.{IsCanonicalOrder, vertices_of};

use crate::cycle_marks::AtVertex;
use crate::fault::OrderFault;
use crate::removable_vertices::{mark_base, removable_vertex};
use crate::triangulation_base::Base;
use crate::vertex_list_tools::{entry_behind, resized, reversed_vertices};
use crate::vertex_order::Order;
use half_edges::{Counts, DartId, HalfMap, Rotations, VertexId, VertexList};
use std::alloc::{AllocError, Global};
use std::mem;

// Writes the vertices left unpeeled, `s`, `t` and `under` of `base`, to the first three entries of `at`, in this order.
fn put_first(at: &mut [VertexId], base: &Base<'_>)
    requires { 3 ≤ length at.old }
    ensures { map (λ v. v.0) at.new ≡ base.now.s ∷ base.now.t ∷ base.now.under ∷ drop 3 (map (λ v. v.0) at.old) }
{
    at[0] = VertexId(base.s);
    at[1] = VertexId(base.t);
    at[2] = VertexId(base.under);
}

// Writes a canonical order for `base` to `at`, one entry for each vertex, from the last down: peels vertices off the
// outer cycle until three are left. `marked` (on the cycle), `gone` (taken off) and `near` (how many neighbours are on
// the cycle) have an entry for each vertex, unset at first; `stack` is empty, `fresh` is scratch space. It fails only
// when out of memory.
fn peel(
    marked: &mut [bool],
    near: &mut [u16],
    gone: &mut [bool],
    stack: &mut Vec<u16>,
    fresh: &mut Vec<u16>,
    at: &mut [VertexId],
    base: &Base<'_>,
) -> Result<(), AllocError>
    requires unmarked { IsUnmarked base.now.lists.now marked.old near.old }
    requires gone { length gone.old ≡ length base.now.lists.now }
    requires all_left { (u : ℕ) → is_set gone.old u ≡ false }
    requires empty { stack.old.items ≡ [] }
    requires places { length at.old ≡ length base.now.lists.now }
    ensures { IfOk result (λ _. IsCanonicalOrder base.now.lists.now (base.now.t, base.now.s) (map (λ v. v.0) at.new)) }
{
    base.facts();
    mark_base(marked, near, stack, base)?;
    for k in (3..base.lists.len()).rev() {
        let v = removable_vertex(marked, near, stack, base);
        gone[v as usize] = true;
        let off = AtVertex {
            lists: base.lists,
            gone,
            v,
        };
        off.leave_cycle(marked, near, stack, fresh)?;
        at[k] = VertexId(v);
    }
    put_first(at, base);
    Ok(())
}

/// Returns the order of the vertices `taken`, all of them once, the last one first. Fails only when out of memory.
pub fn reversed_order(alloc: Global, taken: &[u16]) -> Result<Order, AllocError>
    requires few { length taken.now < 4096 }
    requires within { All (λ v. v < length taken.now) taken.now }
    requires distinct { AllPairs ◌≢◌ taken.now }
    ensures vertices { IfOk result (λ order. vertices_of order ≡ reverse taken.now) }
{
    let at = reversed_vertices(alloc, taken)?;
    let order = Order::of(at, Counts::new(alloc))?;
    Ok(order)
}

/// Orders triangulations, one after another, and keeps its memory for the next: a few bytes for each vertex and each
/// entry of the largest one so far.
#[derive(Drop)]
pub struct Peeler {
    // for each vertex whether it is on the outer cycle, and after these n entries whether it was taken off
    marks: Vec<bool>,
    near: Vec<u16>,
    stack: Vec<u16>,
    // the neighbours of one vertex that come onto the cycle
    fresh: Vec<u16>,
    /// The order of the triangulation that was ordered last.
    pub order: Order,
}

impl Peeler {
    /// Returns a peeler that has ordered nothing yet. It takes no memory.
    pub fn new(alloc: Global) -> Peeler {
        Peeler {
            marks: Vec::new(alloc),
            near: Vec::new(alloc),
            stack: Vec::new(alloc),
            fresh: Vec::new(alloc),
            order: Order::new(alloc),
        }
    }

    // Resets the tables for `n` vertices with `entries` list entries: none is marked or taken off, the stack is empty.
    fn clear(&mut self, n: usize, entries: usize) -> Result<(), AllocError>
        requires { n < 4096 }
        ensures marks { OnOk result (self.new.marks.items ≡ replicate (2 * n) false) }
        ensures near { OnOk result (self.new.near.items ≡ replicate n 0) }
        ensures stack { OnOk result (self.new.stack.items ≡ []) }
    {
        self.marks.clear();
        self.marks.resize(2 * n, false)?;
        self.near.clear();
        self.near.resize(n, 0)?;
        self.stack.clear();
        self.stack.reserve(entries)?;
        Ok(())
    }

    // Returns the vertices in canonical order for `base`, in the memory of `spent`. Overwrites the tables, not `order`.
    fn take(&mut self, base: &Base<'_>, spent: VertexList) -> Result<Vec<VertexId>, AllocError>
        ensures { IfOk result (λ at. IsCanonicalOrder base.now.lists.now (base.now.t, base.now.s) (map (λ v. v.0) at.items)) }
    {
        let n = base.lists.len();
        self.clear(n, base.lists.total())?;
        let mut at = resized(spent.into_vec(), n, VertexId(0))?;
        let (marked, gone) = self.marks.split_at_mut(n);
        peel(
            marked,
            &mut self.near,
            gone,
            &mut self.stack,
            &mut self.fresh,
            &mut at,
            base,
        )?;
        Ok(at)
    }

    // Leaves the canonical order of the triangulation of `base` in `order`. It fails only when out of memory.
    fn peel(&mut self, alloc: Global, base: &Base<'_>) -> Result<(), AllocError>
        ensures order { OnOk result (IsCanonicalOrder base.now.lists.now (base.now.t, base.now.s) (vertices_of self.new.order)) }
    {
        base.facts();
        let spent = mem::replace(&mut self.order, Order::new(alloc));
        let at = self.take(base, spent.at)?;
        let order = Order::of(at, spent.rank)?;
        self.order = order;
        Ok(())
    }

    /// Orders `tri`, whose rotations are `lists`, as [`canon_order`] does for the dart `base`, and leaves the order in
    /// the field `order`. It fails only when out of memory.
    #[inline(always)]
    pub fn order_map(
        &mut self,
        alloc: Global,
        tri: &HalfMap,
        lists: &Rotations,
        base: DartId,
    ) -> Result<(), AllocError>
        requires triangulation { IsTriangulation tri.now.lists }
        requires lists { lists.now ≡ tri.now.lists }
        requires live { IsLive tri.now base.0 }
        ensures order { OnOk result ((t s : ℕ) → dart_at tri.now base.0 ≡ Some (t, s) → IsCanonicalOrder tri.now.lists (t, s) (vertices_of self.new.order)) }
    {
        let t = tri.tail(base).0;
        let s = tri.head(base).0;
        let third = tri.head(tri.face_step(base)).0;
        let under = tri.head(tri.face_step(tri.twin(base))).0;
        let based = Base {
            lists,
            t,
            s,
            third,
            under,
        };
        self.peel(alloc, &based)?;
        Ok(())
    }

    /// Orders the triangulation `lists` as [`canon_order`] does for the base from `t` to `s`, and leaves the order in
    /// the field `order`. It fails only when out of memory.
    #[inline(always)]
    pub fn order_lists(
        &mut self,
        alloc: Global,
        lists: &Rotations,
        t: u16,
        s: u16,
    ) -> Result<(), AllocError>
        requires triangulation { IsTriangulation lists.now }
        requires base { HasDart lists.now t s }
        ensures order { OnOk result (IsCanonicalOrder lists.now (t, s) (vertices_of self.new.order)) }
    {
        lists.facts();
        let third = entry_behind(lists.list(s as usize), t);
        let under = entry_behind(lists.list(t as usize), s);
        let base = Base {
            lists,
            t,
            s,
            third,
            under,
        };
        self.peel(alloc, &base)?;
        Ok(())
    }
}

/// Returns a canonical order of the triangulation `tri` for the dart `base`, from t to s. `tri` is a simple map of
/// genus zero with n >= 3 and m = 3n - 6.
///
/// `at` has all vertices once: s is the first, t the second, and the third vertex of the face on the left of the base
/// is the last. Each vertex from the third one on is put on the outer cycle of the map of those before it. Its
/// neighbours among these are at least two consecutive vertices of that cycle, which goes from s to t. Each two of them
/// that follow one another are a face of the whole map with it. These faces are all but that of the base. `rank` has
/// the index of each vertex in `at`.
///
/// It fails only when out of memory. The map stays as it is. The time is linear in the vertices, which are taken off
/// from the last one on. Each goes onto the outer cycle and off it once. A count of each vertex's neighbours on the
/// cycle is kept; a vertex of the cycle with just two may be taken off.
///
/// Source: de Fraysseix, Pach, Pollack, How to draw a planar graph on a grid, 1990.
pub fn canon_order(alloc: Global, tri: &HalfMap, base: DartId) -> Result<Order, OrderFault>
    requires triangulation { IsTriangulation tri.now.lists }
    requires live { IsLive tri.now base.0 }
    ensures order { IfOk result (λ order. (t s : ℕ) → dart_at tri.now base.0 ≡ Some (t, s) → IsCanonicalOrder tri.now.lists (t, s) (vertices_of order)) }
{
    let lists = tri.rotations(alloc)?;
    let mut peeler = Peeler::new(alloc);
    peeler.order_map(alloc, tri, &lists, base)?;
    let order = mem::replace(&mut peeler.order, Order::new(alloc));
    Ok(order)
}

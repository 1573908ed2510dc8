//! Edges added to and removed from a half-edge map, in constant time and without taking memory, and room made for more.
ghost use Rattle.std.specs.Prelude.{◌*◌, vec_len, vec_capacity, ◌≡◌, ◌≢◌, ◌+◌, ◌-◌, ◌<◌, ◌≤◌, ℕ, true, min, max, length, Option, Some, OnOk, OnErr};
ghost use Rattle.map_theory.specs.Maps.{HasDart};
ghost use Rattle.map_theory.specs.Edges.{without_edge};
ghost use Rattle.half_edges.specs.Map.{IsHalfMap, IsLive, dart_at};
ghost use Rattle.half_edges.specs.Arena.{arena_lists, dart_in, vertex_at, next_of, prev_of, tail_of, head_of, live_of, IsPaired, AreFree, IsWired};
ghost use Rattle.half_edges.specs.Links.{IsFreer};
ghost use Rattle.half_edges.specs.Edges.{moved_first, corner_place, IsCorner, with_edge, corner_tail, corner_entry, AreCornersIn, IsTakenOut, IsPut, IsPutWithin};

use crate::dart_records::{DartRecord, VertexRecord, splice, thread, unsplice};
use crate::{DartId, Ends, HalfMap, VertexId};
use std::alloc::AllocError;

/// A position in the rotation of a vertex at which a new dart is linked in.
#[derive(Clone, Copy, PartialEq, Eq)]
pub enum Corner {
    /// Directly after this dart, clockwise.
    After(DartId),
    /// At this vertex, which is isolated.
    Only(VertexId),
}

impl HalfMap {
    /// Makes room for edges, so that `spare` is the greater of `k`, which is at most 2^23, and its old value.
    /// After an error, which comes only when out of memory, nothing has changed.
    pub fn reserve_edges(&mut self, k: u32) -> Result<(), AllocError>
        requires few { k ≤ 8388608 }
        ensures spare { OnOk result (self.new.spare ≡ max k self.old.spare) }
        ensures lists { OnOk result (self.new.lists ≡ self.old.lists) }
        ensures ids { OnOk result ((d : ℕ) → dart_at self.new d ≡ dart_at self.old d) }
        ensures err { OnErr result (self.new ≡ self.old) }
        ensures known { OnOk result (IsHalfMap self.new) }
    {
        let more = k.saturating_sub(self.spare);
        match self.darts.reserve(2 * more as usize) {
            Ok(()) => {
                let free = push_free(&mut self.darts, self.free, self.spare, more);
                self.free = free;
                self.spare += more;
                Ok(())
            }
            Err(_) => Err(AllocError),
        }
    }

    /// Adds an edge between the corners `at_u` and `at_v`, at vertices that are distinct and not adjacent. Returns the
    /// dart from the first to the second. The new entry stands directly after the one that its corner names. The map
    /// must have room for an edge (`spare`), and has room for one fewer then. All other darts keep their ids.
    #[inline(always)]
    pub fn add_edge(&mut self, at_u: Corner, at_v: Corner) -> DartId
        requires spare { 1 ≤ self.old.spare }
        requires corner_u { IsCorner self.old at_u }
        requires corner_v { IsCorner self.old at_v }
        requires two_vertices { (u v : ℕ) (a b : Option ℕ) → corner_place self.old at_u ≡ Some (u, a) → corner_place self.old at_v ≡ Some (v, b)
            → u ≢ v }
        requires not_adjacent { (u v : ℕ) (a b : Option ℕ) → corner_place self.old at_u ≡ Some (u, a) → corner_place self.old at_v ≡ Some (v, b)
            → ¬ HasDart self.old.lists u v }
        ensures lists { (u v : ℕ) (a b : Option ℕ) → corner_place self.old at_u ≡ Some (u, a) → corner_place self.old at_v ≡ Some (v, b)
            → self.new.lists ≡ with_edge self.old.lists u a v b }
        ensures spare { self.new.spare + 1 ≡ self.old.spare }
        ensures dart { (u v : ℕ) (a b : Option ℕ) → corner_place self.old at_u ≡ Some (u, a) → corner_place self.old at_v ≡ Some (v, b)
            → dart_at self.new result.0 ≡ Some (u, v) }
        ensures live { IsLive self.new result.0 }
        ensures ids { (e v u : ℕ) → dart_at self.old e ≡ Some (v, u) → dart_at self.new e ≡ Some (v, u) }
        ensures known { IsHalfMap self.new }
    {
        let d = self.free;
        let next = first_free_behind(&self.darts, d, self.spare);
        put_edge(
            &mut self.darts,
            &mut self.vertices,
            d,
            self.spare,
            at_u,
            at_v,
        );
        self.free = next;
        self.edges += 1;
        self.spare -= 1;
        DartId(d)
    }

    /// Removes the edge of `d`, and returns its ends. Its two entries leave their lists, and `spare` rises by one.
    /// All other darts keep their ids.
    pub fn remove_edge(&mut self, d: DartId) -> Ends
        requires { IsLive self.old d.0 }
        ensures lists { (u v : ℕ) → dart_at self.old d.0 ≡ Some (u, v) → self.new.lists ≡ without_edge self.old.lists u v }
        ensures spare { self.new.spare ≡ self.old.spare + 1 }
        ensures ids { (e v u : ℕ) → HasDart self.new.lists v u → dart_at self.old e ≡ Some (v, u) → dart_at self.new e ≡ Some (v, u) }
        ensures lesser { (u v : ℕ) → dart_at self.old d.0 ≡ Some (u, v) → result.a.0 ≡ min u v }
        ensures greater { (u v : ℕ) → dart_at self.old d.0 ≡ Some (u, v) → result.b.0 ≡ max u v }
        ensures known { IsHalfMap self.new }
    {
        let ends = take_edge(
            &mut self.darts,
            &mut self.vertices,
            d.0,
            self.free,
            self.spare,
        );
        self.free = d.0;
        self.edges -= 1;
        self.spare += 1;
        ends
    }
}

// Returns the ends `u` and `v` of an edge, the lesser first.
fn ends_of(u: u16, v: u16) -> Ends
    requires { u ≢ v }
    ensures lesser { result.a.0 ≡ min u v }
    ensures greater { result.b.0 ≡ max u v }
{
    Ends {
        a: VertexId(u.min(v)),
        b: VertexId(u.max(v)),
    }
}

// Returns the first dart of a vertex once `d` is removed: `next` where `d` was the first, and else `first`.
fn first_without(first: u32, d: u32, next: u32) -> u32
    ensures { result ≡ moved_first first d next }
{
    if first == d { next } else { first }
}

// Unlinks the dart `d` of `darts` from its tail, and updates the degree and the first dart of that vertex in
// `vertices`.
fn take_out(darts: &mut [DartRecord], vertices: &mut [VertexRecord], d: u32)
    requires d_in { d < length darts.old }
    requires prev_in { prev_of darts.old d < length darts.old }
    requires next_in { next_of darts.old d < length darts.old }
    requires vertex_in { tail_of darts.old d < length vertices.old }
    requires some { 0 < (vertex_at vertices.old (tail_of darts.old d)).degree }
    ensures { IsTakenOut darts.old darts.new vertices.old vertices.new d }
{
    let record = darts[d as usize];
    unsplice(darts, d);
    let vertex = vertices[record.tail as usize];
    vertices[record.tail as usize] = VertexRecord {
        first: first_without(vertex.first, d, record.next),
        degree: vertex.degree - 1,
    };
}

// Removes the edge of the dart `d` from `darts` and `vertices`, and returns its ends. The edge comes to the front of
// the list of free edges, which begins at the dart `free` and has `spare` edges.
fn take_edge(
    darts: &mut [DartRecord],
    vertices: &mut [VertexRecord],
    d: u32,
    free: u32,
    spare: u32,
) -> Ends
    requires wired { IsWired (arena_lists darts.old vertices.old) darts.old vertices.old free spare }
    requires live { live_of darts.old d ≡ true }
    ensures wired { IsWired (without_edge (arena_lists darts.old vertices.old) (tail_of darts.old d) (head_of darts.old d)) darts.new vertices.new d (spare + 1) }
    ensures ids { (e v u : ℕ) → HasDart (without_edge (arena_lists darts.old vertices.old) (tail_of darts.old d) (head_of darts.old d)) v u → dart_in darts.old e ≡ Some (v, u) → dart_in darts.new e ≡ Some (v, u) }
    ensures lesser { result.a.0 ≡ min (tail_of darts.old d) (head_of darts.old d) }
    ensures greater { result.b.0 ≡ max (tail_of darts.old d) (head_of darts.old d) }
{
    let record = darts[d as usize];
    let ends = ends_of(record.tail, darts[record.twin as usize].tail);
    take_out(darts, vertices, d);
    take_out(darts, vertices, record.twin);
    thread(darts, d, record.twin, free, spare);
    ends
}

// Links the dart `d` of `darts` in at `corner`, and raises the degree of that vertex in `vertices`.
#[inline(always)]
fn put_dart(darts: &mut [DartRecord], vertices: &mut [VertexRecord], d: u32, corner: Corner)
    requires d_in { d < length darts.old }
    requires within { IsPutWithin darts.old vertices.old d corner }
    ensures { IsPut darts.old darts.new vertices.old vertices.new d corner }
{
    match corner {
        Corner::After(e) => {
            let before = darts[e.0 as usize];
            splice(darts, d, e.0, before.next, before.tail);
            vertices[before.tail as usize].degree += 1;
        }
        Corner::Only(v) => {
            splice(darts, d, d, d, v.0);
            vertices[v.0 as usize] = VertexRecord {
                first: d,
                degree: 1,
            };
        }
    }
}

// Links the two darts of the first free edge in `darts`, `d` and its twin, in at the corners `at_u` and `at_v`, with
// their records in `vertices`. Only the contract needs `spare`.
#[inline(always)]
fn put_edge(
    darts: &mut [DartRecord],
    vertices: &mut [VertexRecord],
    d: u32,
    spare: u32,
    at_u: Corner,
    at_v: Corner,
)
    requires wired { IsWired (arena_lists darts.old vertices.old) darts.old vertices.old d spare }
    requires some { 0 < spare }
    requires corners { AreCornersIn (arena_lists darts.old vertices.old) darts.old at_u at_v }
    ensures wired { IsWired (with_edge (arena_lists darts.old vertices.old) (corner_tail darts.old at_u) (corner_entry darts.old at_u) (corner_tail darts.old at_v) (corner_entry darts.old at_v)) darts.new vertices.new (next_of darts.old d) (spare - 1) }
    ensures dart { dart_in darts.new d ≡ Some (corner_tail darts.old at_u, corner_tail darts.old at_v) }
    ensures ids { (e v u : ℕ) → dart_in darts.old e ≡ Some (v, u) → dart_in darts.new e ≡ Some (v, u) }
{
    let _spare = spare;
    let twin = darts[d as usize].twin;
    put_dart(darts, vertices, d, at_u);
    put_dart(darts, vertices, twin, at_v);
}

// Returns a dart of the second free edge in `darts`, where `free` is one of the first. Only the contract needs `spare`.
fn first_free_behind(darts: &[DartRecord], free: u32, spare: u32) -> u32
    requires threaded { AreFree darts.now free spare }
    requires some { 0 < spare }
    ensures { result ≡ next_of darts.now free }
{
    darts[free as usize].next
}

// Appends the records of `more` free edges to `darts`, in front of the list of free edges, which begins at the dart
// `free` and has `spare` edges. Returns the dart at which it then begins.
fn push_free(darts: &mut Vec<DartRecord>, free: u32, spare: u32, more: u32) -> u32
    requires room { vec_len darts.old + 2 * more ≤ vec_capacity darts.old }
    requires few { vec_len darts.old + 2 * more ≤ 67108864 }
    requires few_spare { spare + more ≤ 33554432 }
    requires paired { (z : ℕ) → z < length darts.old.items → IsPaired darts.old.items z }
    requires threaded { AreFree darts.old.items free spare }
    ensures { IsFreer darts.old.items darts.new.items result spare more }
{
    let mut free = free;
    for i in 0..more {
        let d = darts.len() as u32;
        darts.push_reserved(DartRecord {
            twin: d + 1,
            next: free,
            prev: spare + i,
            tail: 0,
            live: false,
        });
        darts.push_reserved(DartRecord {
            twin: d,
            next: free,
            prev: spare + i,
            tail: 0,
            live: false,
        });
        free = d;
    }
    free
}

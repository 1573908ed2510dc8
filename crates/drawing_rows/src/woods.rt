//! Answers test rows on Schnyder realizers of triangulations, the regions of their vertices, and the drawing made by
//! them.
ghost use Rattle.std.specs.Prelude.{◌<◌, IfOk};
ghost use Rattle.map_theory.specs.Maps.{Dart, HasDart};
ghost use Rattle.plane_laws.specs.Triangulations.{IsTriangulation};
ghost use Rattle.canon_order.specs.Orders.{IsCanonicalOrder, vertices_of};
ghost use Rattle.schnyder_wood.specs.Parents.{count_in, IsInnerIn, IsWoodOf};

use canon_order::Order;
use half_edges::{HalfMap, VertexId};
use pg_plane::Points;
use row_texts::fault_texts::tell_no_memory;
use row_texts::points::put_points;
use row_texts::reply::Reply;
use row_texts::rows::Row;
use schnyder_grid::schnyder_draw;
use schnyder_wood::schnyder_regions::region_count;
use schnyder_wood::{Colour, Wood, path_len, wood};
use std::alloc::{AllocError, Global};

// The three colours of a realizer.
const COLOURS: [Colour; 3] = [Colour::One, Colour::Two, Colour::Three];

// Returns the realizer that `order` makes of `tri`.
fn wood_of(alloc: Global, tri: &HalfMap, order: &Order) -> Result<Wood, AllocError>
    requires triangulation { IsTriangulation tri.now.lists }
    requires order { (base : Dart) × IsCanonicalOrder tri.now.lists base (vertices_of order.now) }
    requires based { (base : Dart) × HasDart tri.now.lists base.0 base.1 × IsCanonicalOrder tri.now.lists base (vertices_of order.now) }
    ensures { IfOk result (λ found. (base : Dart) × HasDart tri.now.lists base.0 base.1 × IsWoodOf tri.now.lists base found) }
{
    let found = wood(alloc, tri, order)?;
    Ok(found)
}

// Writes the parents of `v` with the lengths of its paths to the roots, and the roots.
fn put_parents(found: &Wood, v: VertexId, out: &mut Reply)
    requires { v.0 < count_in found.now }
{
    for colour in COLOURS {
        match found.parent(colour, v) {
            Some(u) => {
                out.put_number(u64::from(u.0));
                out.put_one(" at", u64::from(path_len(found, v, colour)));
                out.put(", ");
            }
            None => out.put("root, "),
        }
    }
    out.put("roots");
    for colour in COLOURS {
        out.put_one("", u64::from(found.root(colour).0));
    }
}

// Returns the counts of the three regions of an inner vertex `v`.
fn regions(alloc: Global, tri: &HalfMap, found: &Wood, v: VertexId) -> Result<[u32; 3], AllocError>
    requires inner { IsInnerIn found.now v.0 }
    requires wood { (base : Dart) × HasDart tri.now.lists base.0 base.1 × IsWoodOf tri.now.lists base found.now }
{
    let one = region_count(alloc, tri, found, v, Colour::One)?;
    let two = region_count(alloc, tri, found, v, Colour::Two)?;
    let three = region_count(alloc, tri, found, v, Colour::Three)?;
    Ok([one, two, three])
}

// Writes the counts of the three regions of `v`, if it is an inner vertex.
fn put_regions(tri: &HalfMap, found: &Wood, v: VertexId, out: &mut Reply)
    requires vertex { v.0 < count_in found.now }
    requires wood { (base : Dart) × HasDart tri.now.lists base.0 base.1 × IsWoodOf tri.now.lists base found.now }
{
    if found.parent(Colour::One, v).is_some() {
        match regions(out.alloc, tri, found, v) {
            Ok(counts) => {
                out.put_number(u64::from(counts[0]));
                out.put_one("", u64::from(counts[1]));
                out.put_one("", u64::from(counts[2]));
            }
            Err(_) => tell_no_memory(out),
        }
    }
}

// Says whether an inner vertex `v` has the point that its regions say: each coordinate is a region's count less the
// length of the path of the colour before.
fn stands(alloc: Global, tri: &HalfMap, found: &Wood, v: VertexId, points: &Points) -> bool
    requires inner { IsInnerIn found.now v.0 }
    requires wood { (base : Dart) × HasDart tri.now.lists base.0 base.1 × IsWoodOf tri.now.lists base found.now }
{
    match regions(alloc, tri, found, v) {
        Ok(counts) if usize::from(v.0) < points.len() => {
            let point = points.get(usize::from(v.0));
            let x = counts[0].wrapping_sub(path_len(found, v, Colour::Three));
            let y = counts[1].wrapping_sub(path_len(found, v, Colour::One));
            i64::from(point.x) == i64::from(x) && i64::from(point.y) == i64::from(y)
        }
        _ => false,
    }
}

// Writes the first `most` points of the drawing by a realizer, and how many inner vertices have the points that the
// regions say.
fn put_drawing(tri: &HalfMap, found: &Wood, most: u16, out: &mut Reply)
    requires triangulation { IsTriangulation tri.now.lists }
    requires wood { (base : Dart) × HasDart tri.now.lists base.0 base.1 × IsWoodOf tri.now.lists base found.now }
{
    match schnyder_draw(out.alloc, tri, found) {
        Ok(figure) => {
            put_points(&figure.points, usize::from(most), out);
            let mut count: u64 = 0;
            for v in 0..found.n() {
                if found.parent(Colour::One, VertexId(v)).is_some()
                    && stands(out.alloc, tri, found, VertexId(v), &figure.points)
                {
                    count = count.wrapping_add(1);
                }
            }
            out.put_one(",", count);
            out.put(" by regions");
        }
        Err(_) => tell_no_memory(out),
    }
}

/// Answers a row on the wood of an order, with a number: that of a vertex, or how many points are told.
pub fn answer(row: &Row<'_>, tri: &HalfMap, order: &Order, out: &mut Reply)
    requires triangulation { IsTriangulation tri.now.lists }
    requires order { (base : Dart) × IsCanonicalOrder tri.now.lists base (vertices_of order.now) }
    requires based { (base : Dart) × HasDart tri.now.lists base.0 base.1 × IsCanonicalOrder tri.now.lists base (vertices_of order.now) }
{
    let number = row.number(1);
    match wood_of(out.alloc, tri, order) {
        Ok(found) => match row.call {
            "parents" if number < found.n() => put_parents(&found, VertexId(number), out),
            "region" if number < found.n() => put_regions(tri, &found, VertexId(number), out),
            _ => put_drawing(tri, &found, number, out),
        },
        Err(_) => tell_no_memory(out),
    }
}

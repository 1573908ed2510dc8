//! Answers test rows on trees of offsets, and on the points to which they add up.
ghost use Rattle.std.specs.Prelude.{◌≡◌, ◌<◌, length};
ghost use Rattle.map_theory.specs.Maps.{Dart, vertex_count};
ghost use Rattle.plane_laws.specs.Triangulations.{IsTriangulation};
ghost use Rattle.canon_order.specs.Orders.{IsCanonicalOrder, vertices_of};

use canon_order::Order;
use fpp_shift::{Node, Offsets, offset_tree, sum_offsets};
use half_edges::{HalfMap, VertexId};
use pg_io::Steps;
use row_texts::fault_texts::tell_no_memory;
use row_texts::points::put_points;
use row_texts::reply::Reply;
use std::marker::Brand;
use std::sync::ledger::{Blank, Ledger};

// Writes the vertex to which `link` leads, or a dash.
fn put_link(link: Option<VertexId>, out: &mut Reply) {
    match link {
        Some(v) => out.put_one("", u64::from(v.0)),
        None => out.put(" -"),
    }
}

// Writes `node` by its offset, its height and its links.
fn put_node(node: Node, out: &mut Reply) {
    out.put_whole(i64::from(node.x));
    out.put_letter(' ');
    out.put_whole(i64::from(node.y));
    put_link(node.left, out);
    put_link(node.right, out);
}

// Writes the points of `tri` by a tree of offsets made for them, and before them its nodes if `nodes` holds.
fn put_sums<L: Ledger>(nodes: bool, tri: &HalfMap, order: &Order, blank: Blank, out: &mut Reply)
    requires triangulation { IsTriangulation tri.now.lists }
    requires order { (base : Dart) × IsCanonicalOrder tri.now.lists base (vertices_of order.now) }
    requires size { 0 < vertex_count tri.now.lists }
    requires first { 0 < length order.now.at }
    requires name { blank.name ≡ L.name }
    requires parts { blank.parts ≡ L.parts }
    requires some { 0 < blank.parts }
{
    let mut steps: Steps<L> = Steps::new(blank);
    let Ok(mut tree) = Offsets::new(out.alloc, tri.n()) else {
        return tell_no_memory(out);
    };
    offset_tree(tri, order, &mut tree, &mut steps);
    match sum_offsets(out.alloc, &tree, order.at.get(0), &mut steps) {
        Ok(points) => {
            if nodes {
                for v in 0..tree.len() {
                    put_node(tree.get(VertexId(v), &mut steps), out);
                    out.put_letter(';');
                }
                out.put(" points ");
            }
            put_points(&points, usize::MAX, out);
        }
        Err(_) => tell_no_memory(out),
    }
}

/// Writes the points of the tree of a triangulation, and before them its nodes where they are asked for.
pub fn answer(nodes: bool, tri: &HalfMap, order: &Order, out: &mut Reply)
    requires triangulation { IsTriangulation tri.now.lists }
    requires order { (base : Dart) × IsCanonicalOrder tri.now.lists base (vertices_of order.now) }
{
    if 0 < tri.n() && 0 < order.at.len() {
        put_sums::<Brand>(nodes, tri, order, Blank::new(1), out);
    }
}

// Puts a node at `v` into a tree of `n` nodes, reads it again and writes it, with a step counter on the ledger `blank`.
fn put_counted<L: Ledger>(n: u16, v: u16, blank: Blank, out: &mut Reply)
    requires within { v < n }
    requires name { blank.name ≡ L.name }
    requires parts { blank.parts ≡ L.parts }
    requires some { 0 < blank.parts }
{
    let mut steps: Steps<L> = Steps::new(blank);
    let Ok(mut tree) = Offsets::new(out.alloc, n) else {
        return tell_no_memory(out);
    };
    out.put_number(u64::from(tree.len()));
    out.put(" nodes, ");
    let node = Node {
        x: 3,
        y: 4,
        left: None,
        right: Some(VertexId(v)),
    };
    tree.put(VertexId(v), node, &mut steps);
    put_node(tree.get(VertexId(v), &mut steps), out);
}

/// Puts a node at a vertex of so many, takes it from there and writes it.
pub fn node(n: u16, v: u16, out: &mut Reply) {
    if v < n {
        put_counted::<Brand>(n, v, Blank::new(1), out);
    }
}

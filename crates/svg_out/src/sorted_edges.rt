//! The edges of a map in order: by the lesser end, and then by the greater.
ghost use Rattle.std.specs.Prelude.{◌≡◌, ◌<◌, length, OnOk, IfOk};
ghost use Rattle.map_theory.specs.Maps.{IsSimpleMap, edge_count};
ghost use Rattle.svg_out.specs.Edges.{later_neighbours, edges as the_edges};

use map_lists::Rotations;
use std::alloc::{AllocError, Global};

// Replaces `row` by `v`'s neighbours above `v` in the simple map `lists`, rising. It fails only when out of memory.
fn fill_sorted(lists: &Rotations, v: usize, row: &mut Vec<u16>) -> Result<(), AllocError>
    requires simple { IsSimpleMap lists.now }
    requires vertex { v < length lists.now }
    ensures { OnOk result (row.new.items ≡ later_neighbours lists.now v) }
{
    let us = lists.list(v);
    row.clear();
    for k in 0..us.len() {
        let u = us[k];
        if v < usize::from(u) {
            row.push(u)?;
        }
    }
    row.sort_unstable();
    Ok(())
}

/// Returns a simple map's edges in order, each by its lesser end, then its greater one. Fails only when out of memory.
pub(crate) fn edges(alloc: Global, lists: &Rotations) -> Result<Vec<(usize, usize)>, AllocError>
    requires { IsSimpleMap lists.now }
    ensures order { IfOk result (λ edges. edges.items ≡ the_edges lists.now) }
    ensures count { IfOk result (λ edges. length edges.items ≡ edge_count lists.now) }
{
    let mut edges = Vec::new(alloc);
    let mut row = Vec::new(alloc);
    for v in 0..lists.len() {
        fill_sorted(lists, v, &mut row)?;
        for k in 0..row.len() {
            edges.push((v, usize::from(row[k])))?;
        }
    }
    Ok(edges)
}

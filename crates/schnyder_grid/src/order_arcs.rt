//! The arcs of the order that a Schnyder wood gives: which vertex comes before which neighbour.
ghost use Rattle.std.specs.Prelude.{◌≡◌, ◌<◌, ◌↔◌, ℕ, [], length, All, IsTrue, IfOk};
ghost use Rattle.map_theory.specs.Maps.{HasDart};
ghost use Rattle.schnyder_wood.specs.Parents.{kind, count_in};
ghost use Rattle.schnyder_grid.specs.Arcs.{HasParent, ComesDown, JoinsRoots, GoesUp, IsArc, IsArcPut, AreArcs, AreWoodArcs};

use half_edges::{Rotations, VertexId};
use map_lists::ItemLists;
use schnyder_wood::{Colour, Wood};
use std::alloc::{AllocError, Global};

// Says whether `u` is the parent in `wood` of `v` in `colour`.
fn is_parent(wood: &Wood, colour: Colour, v: u16, u: u16) -> bool
    requires { v < count_in wood.now }
    ensures { IsTrue result ↔ HasParent wood.now (kind colour) v u }
{
    match wood.parent(colour, VertexId(v)) {
        Some(parent) => parent.0 == u,
        None => false,
    }
}

// Says whether `e` is the parent of `r` in colour one or two, and so comes before it.
fn comes_down(wood: &Wood, e: u16, r: u16) -> bool
    requires { r < count_in wood.now }
    ensures { IsTrue result ↔ ComesDown wood.now e r }
{
    is_parent(wood, Colour::One, r, e) || is_parent(wood, Colour::Two, r, e)
}

// Says whether `e` and `r` are roots one and two, or roots two and three.
fn joins(wood: &Wood, e: u16, r: u16) -> bool
    ensures { IsTrue result ↔ JoinsRoots wood.now e r }
{
    let one = wood.root(Colour::One).0;
    let two = wood.root(Colour::Two).0;
    let three = wood.root(Colour::Three).0;
    (e == one && r == two) || (e == two && r == three)
}

// Says whether `r` is the parent of `e` in colour three, or both are successive roots, and so `e` comes before it.
fn goes_up(wood: &Wood, e: u16, r: u16) -> bool
    requires { e < count_in wood.now }
    ensures { IsTrue result ↔ GoesUp wood.now e r }
{
    is_parent(wood, Colour::Three, e, r) || joins(wood, e, r)
}

// Says whether there is an arc from `e` to its neighbour `r`: `comes_down` or `goes_up`. Then `e` comes before `r`.
fn leads(wood: &Wood, e: u16, r: u16) -> bool
    requires e_in { e < count_in wood.now }
    requires r_in { r < count_in wood.now }
    ensures { IsTrue result ↔ IsArc wood.now e r }
{
    comes_down(wood, e, r) || goes_up(wood, e, r)
}

// Appends `r` to `row` if there is an arc from `e` to it. It fails only when out of memory.
fn put_arc(wood: &Wood, e: u16, r: u16, row: &mut Vec<u32>) -> Result<(), AllocError>
    requires e_in { e < count_in wood.now }
    requires r_in { r < count_in wood.now }
    ensures { IfOk result (λ _. IsArcPut wood.now e r row.old.items row.new.items) }
{
    if leads(wood, e, r) {
        row.push(r as u32)?;
    }
    Ok(())
}

// Appends to `row`, empty before, the vertices of `list` to which an arc leads from `e`. Fails only when out of memory.
fn put_row(wood: &Wood, e: u16, list: &[u16], row: &mut Vec<u32>) -> Result<(), AllocError>
    requires e_in { e < count_in wood.now }
    requires within { All (λ r. r < count_in wood.now) list.now }
    requires empty { row.old.items ≡ [] }
    ensures { IfOk result (λ _. AreArcs wood.now e list.now row.new.items) }
{
    for r in list {
        put_arc(wood, e, *r, row)?;
    }
    Ok(())
}

// Returns for each vertex the list of the neighbours to which an arc leads from it. It fails only when out of memory.
pub(crate) fn wood_arcs(
    alloc: Global,
    lists: &Rotations,
    wood: &Wood,
) -> Result<ItemLists<u32>, AllocError>
    requires count { count_in wood.now ≡ length lists.now }
    requires within { (e r : ℕ) → HasDart lists.now e r → r < length lists.now }
    ensures { IfOk result (AreWoodArcs lists.now wood.now) }
{
    let mut arcs = ItemLists::new(alloc);
    let mut row = Vec::new(alloc);
    for e in 0..lists.len() {
        row.clear();
        put_row(wood, e as u16, lists.list(e), &mut row)?;
        arcs.push(&row)?;
    }
    Ok(arcs)
}

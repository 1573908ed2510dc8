//! Test maps of families, of any size: wheels, prisms, grids of cells, stacked triangulations.
use crate::cell_grids::push_grid;
use map_gen::stacked;
use map_lists::{ItemLists, MOST_VERTICES, Rotations};
use std::alloc::Global;

/// Returns the number after `i`, cyclically among the first `k`.
fn after(i: u16, k: u16) -> u16 {
    let next = i.wrapping_add(1);
    if next < k { next } else { 0 }
}

/// Returns the number before `i`, cyclically among the first `k`.
fn before(i: u16, k: u16) -> u16 {
    if i > 0 { i - 1 } else { k.wrapping_sub(1) }
}

/// Returns the numbers below `k`.
fn first(alloc: Global, k: u16) -> Vec<u16> {
    let mut numbers = Vec::new(alloc);
    for i in 0..k {
        let _ = numbers.push(i);
    }
    numbers
}

/// Appends the lists of a wheel: an outer cycle of `k` vertices, and a hub.
fn push_wheel(alloc: Global, lists: &mut ItemLists<u16>, k: u16) {
    for i in 0..k {
        let _ = lists.push(&[after(i, k), k, before(i, k)]);
    }
    let _ = lists.push(&first(alloc, k));
}

/// Appends the lists of a prism: an outer cycle of `k` vertices and an inner one, joined one by one.
fn push_prism(lists: &mut ItemLists<u16>, k: u16) {
    for i in 0..k {
        let _ = lists.push(&[after(i, k), k.wrapping_add(i), before(i, k)]);
    }
    for i in 0..k {
        let next = k.wrapping_add(after(i, k));
        let _ = lists.push(&[i, next, k.wrapping_add(before(i, k))]);
    }
}

/// Appends the lists of the map `made` to `lists`.
fn push_all(made: &Rotations, lists: &mut ItemLists<u16>) {
    for v in 0..made.len() {
        let _ = lists.push(made.list(v));
    }
}

/// Appends the lists of the map of `n` vertices that `gen` makes from `number`, if `n` is from 3 to 4095.
fn put_stacked(alloc: Global, lists: &mut ItemLists<u16>, n: u16, number: u16) {
    if 3 <= n && n <= MOST_VERTICES {
        match stacked(alloc, n, u32::from(number)) {
            Ok(made) => push_all(&made, lists),
            Err(_) => {}
        }
    }
}

/// Returns the lists of the map of a family with this size, or none where there is no such map or it has more than
/// 4095 vertices.
pub fn map_of(alloc: Global, family: &str, size: u16, number: u16) -> Rotations {
    let mut lists = ItemLists::new(alloc);
    match family {
        "wheel" => push_wheel(alloc, &mut lists, size),
        "prism" => push_prism(&mut lists, size),
        "grid" => push_grid(alloc, &mut lists, size, number),
        "stacked" => put_stacked(alloc, &mut lists, size, number),
        _ => {}
    }
    if lists.len() <= usize::from(MOST_VERTICES) {
        Rotations::from_lists(lists)
    } else {
        Rotations::new(alloc)
    }
}

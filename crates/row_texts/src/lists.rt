//! Rotation lists parsed from the text of a row, or made for a family of maps, and lists written as texts.
ghost use Rattle.std.specs.Prelude.{◌<◌, length};

use crate::reply::Reply;
use crate::row_arguments::{halves, numbers, pair};
use half_edges::{Counts, Rotations, VertexList};
use map_gen::stacked;
use map_lists::{ItemLists, MOST_VERTICES};
use std::alloc::Global;

// Appends the empty lists of `n` isolated vertices.
fn alone(n: u16, lists: &mut ItemLists<u16>) {
    for _ in 0..n {
        let _ = lists.open();
    }
}

// Appends the lists of a path of `n` vertices in the order of their numbers.
fn path(n: u16, lists: &mut ItemLists<u16>) {
    for v in 0..n {
        let (before, after) = (v.wrapping_sub(1), v.wrapping_add(1));
        let _ = if 0 < v && after < n {
            lists.push(&[before, after])
        } else if 0 < v {
            lists.push(&[before])
        } else if after < n {
            lists.push(&[after])
        } else {
            lists.open()
        };
    }
}

// Returns the vertices before and after `v` on a cycle of the vertices from `first` up to `n`.
fn beside(first: u16, n: u16, v: u16) -> (u16, u16) {
    let before = if v == first { n } else { v };
    let after = v.wrapping_add(1);
    (
        before.wrapping_sub(1),
        if after == n { first } else { after },
    )
}

// Appends the lists of a cycle of `n` vertices in the order of their numbers.
fn cycle(n: u16, lists: &mut ItemLists<u16>) {
    for v in 0..n {
        let (before, after) = beside(0, n, v);
        let _ = lists.push(&[after, before]);
    }
}

// Appends the lists of a star or a wheel of `n` vertices whose middle is vertex 0. `most` is the degree of the
// others: 1 in a star, 3 in a wheel.
fn star(alloc: Global, n: u16, most: usize, lists: &mut ItemLists<u16>)
    requires { most < 4 }
{
    let mut rim = Vec::new(alloc);
    for v in 1..n {
        let _ = rim.push(v);
    }
    let _ = lists.push(&rim);
    for v in 1..n {
        let (before, after) = beside(1, n, v);
        let _ = lists.push(&[0, before, after][..most]);
    }
}

// Appends the lists of the stacked triangulation of `n` vertices that `number` chooses, if `n` is from 3 to 4095.
fn stack(alloc: Global, n: u16, number: u16, lists: &mut ItemLists<u16>) {
    if n < 3 || MOST_VERTICES < n {
        return;
    }
    if let Ok(made) = stacked(alloc, n, u32::from(number)) {
        for v in 0..made.len() {
            let _ = lists.push(made.list(v));
        }
    }
}

// Appends the lists of the family that `text` names, or those that it has between semicolons.
fn fill(alloc: Global, text: &str, lists: &mut ItemLists<u16>) {
    let (family, size) = halves(text);
    let (n, number) = pair(size);
    match family {
        "alone" => alone(n, lists),
        "path" => path(n, lists),
        "cycle" => cycle(n, lists),
        "star" => star(alloc, n, 1, lists),
        "wheel" => star(alloc, n, 3, lists),
        "stacked" => stack(alloc, n, number, lists),
        _ => {
            for list in text.split(';') {
                let _ = lists.push(&numbers(alloc, list));
            }
        }
    }
}

/// Lists, of which there is at least one.
#[derive(Drop)]
pub struct SomeLists {
    pub lists: Rotations,
    pub ghost some: { 0 < length lists },
}

/// Returns the lists that a text gives, if there are 1 to 4095.
pub fn lists_of(alloc: Global, text: &str) -> Option<SomeLists> {
    let mut lists = ItemLists::new(alloc);
    fill(alloc, text, &mut lists);
    if lists.len() == 0 || usize::from(MOST_VERTICES) < lists.len() {
        None
    } else {
        Some(SomeLists {
            lists: Rotations::from_lists(lists),
        })
    }
}

/// Writes lists with `;` between them.
pub fn put_lists(lists: &Rotations, out: &mut Reply) {
    for v in 0..lists.len() {
        if 0 < v {
            out.put_letter(';');
        }
        out.put_numbers(lists.list(v));
    }
}

/// Writes the first vertices, at most so many, with spaces between them.
pub fn put_vertices(list: &VertexList, most: usize, out: &mut Reply) {
    for i in 0..list.len().min(most) {
        out.put_gap(i);
        out.put_number(u64::from(list.get(i).0));
    }
}

/// Writes numbers with spaces between them.
pub fn put_counts(list: &Counts, out: &mut Reply) {
    for i in 0..list.len() {
        out.put_gap(i);
        out.put_number(u64::from(list.get(i)));
    }
}

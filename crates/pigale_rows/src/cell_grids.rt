//! Test maps that are grids of cells with diagonals, within a quadrangle.
use map_lists::ItemLists;
use std::alloc::Global;

/// Returns the vertex number of the cell in column `i` and row `j`, after the four outer vertices.
fn cell(columns: u16, i: u16, j: u16) -> u16 {
    j.wrapping_mul(columns).wrapping_add(i).wrapping_add(4)
}

/// Stands for no neighbour.
const NONE: u16 = u16::MAX;

/// Returns the vertex number of the cell in column `i` and row `j`, or `other` where the grid has no such cell.
fn cell_or(columns: u16, rows: u16, i: u16, j: u16, other: u16) -> u16 {
    if i < columns && j < rows {
        cell(columns, i, j)
    } else {
        other
    }
}

/// Returns the six neighbours of the cell in column `i` and row `j`: above, right, below and left, and along rising
/// diagonals.
fn around(columns: u16, rows: u16, i: u16, j: u16) -> [u16; 6] {
    let (right, above) = (i.wrapping_add(1), j.wrapping_add(1));
    let (left, below) = (i.wrapping_sub(1), j.wrapping_sub(1));
    [
        cell_or(columns, rows, i, above, 1),
        cell_or(columns, rows, right, above, NONE),
        cell_or(columns, rows, right, j, 2),
        cell_or(columns, rows, i, below, 3),
        cell_or(columns, rows, left, below, NONE),
        cell_or(columns, rows, left, j, 0),
    ]
}

/// Appends to `lists` a list of those `numbers` that are not `NONE`.
fn push_some(alloc: Global, lists: &mut ItemLists<u16>, numbers: [u16; 6]) {
    let mut list = Vec::new(alloc);
    for number in numbers {
        if number != NONE {
            let _ = list.push(number);
        }
    }
    let _ = lists.push(&list);
}

/// Appends to `lists` the `count` numbers from `first` on by steps of `step`, between the two `ends`.
fn push_side(
    alloc: Global,
    lists: &mut ItemLists<u16>,
    ends: [u16; 2],
    first: u16,
    step: u16,
    count: u16,
) {
    let mut list = Vec::new(alloc);
    let _ = list.push(ends[0]);
    let mut number = first;
    for _ in 0..count {
        let _ = list.push(number);
        number = number.wrapping_add(step);
    }
    let _ = list.push(ends[1]);
    let _ = lists.push(&list);
}

/// Appends the lists of the four outer vertices: each has one side of the grid between its outer neighbours.
fn push_sides(alloc: Global, lists: &mut ItemLists<u16>, columns: u16, rows: u16) {
    let (last, top) = (columns.wrapping_sub(1), rows.wrapping_sub(1));
    let (down, left) = (columns.wrapping_neg(), 1u16.wrapping_neg());
    push_side(alloc, lists, [1, 3], cell(columns, 0, top), down, rows);
    push_side(
        alloc,
        lists,
        [2, 0],
        cell(columns, last, top),
        left,
        columns,
    );
    push_side(alloc, lists, [3, 1], cell(columns, last, 0), columns, rows);
    push_side(alloc, lists, [0, 2], cell(columns, 0, 0), 1, columns);
}

/// Appends the lists of a grid of cells with diagonals, within a quadrangle. Each of its vertices is joined to one
/// side: the left, the upper, the right and the lower one.
pub fn push_grid(alloc: Global, lists: &mut ItemLists<u16>, columns: u16, rows: u16) {
    push_sides(alloc, lists, columns, rows);
    for j in 0..rows {
        for i in 0..columns {
            push_some(alloc, lists, around(columns, rows, i, j));
        }
    }
}

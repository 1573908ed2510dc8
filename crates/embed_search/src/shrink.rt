//! Shrinks a nonplanar part of a graph until it is planar without any path of its own.
use crate::conflict_marks::ConflictMarks;
use crate::kernel::Kernel;
use crate::small_graphs::{has_few_vertices, is_planar_without};
use left_right_test::{LeftRightTest, NONE, minus, plus};

// How many tests there are at most.
const MOST_TESTS: u32 = 1024;

// A part of fewer edges is no longer tested whole.
const FEW_EDGES: u32 = 12;

// How many roots are tried beside the first.
const MOST_ROOTS: u32 = 2;

// Tests `kernel` without the edge `out`, or whole if `out` is NONE. If the test fails, keeps in it only the edges that
// show the conflict and returns true, else false. It overwrites `test` and `marks`.
fn fails_without(
    kernel: &mut Kernel,
    test: &mut LeftRightTest,
    marks: &mut ConflictMarks,
    out: u32,
) -> bool {
    kernel.chain_without(&mut test.links, out);
    if test.passes() {
        return false;
    }
    marks.mark_conflict(test);
    kernel.mark(&marks.marks);
    kernel.keep_marked(&mut test.links);
    true
}

// Removes the edge `out` from `kernel` if the rest is nonplanar, and says whether it did. A rest of fewer than nine
// paths is planar; one of nine that is nonplanar is K3,3, which needs them all. It overwrites `test` and `marks`.
fn is_left_out(
    kernel: &mut Kernel,
    test: &mut LeftRightTest,
    marks: &mut ConflictMarks,
    out: u32,
) -> bool {
    let paths = kernel.paths_without(out);
    if paths < 9 {
        return false;
    }
    if has_few_vertices(&kernel.edges) {
        if is_planar_without(&kernel.edges, out) {
            return false;
        }
        if paths == 9 {
            kernel.drop(&mut test.links, out);
            return true;
        }
    }
    fails_without(kernel, test, marks, out)
}

// Tests `kernel` whole, and keeps the edges that show the conflict, as long as that makes it smaller. Where it does
// not, `MOST_ROOTS` other roots are tried. Fewer than `FEW_EDGES` edges stay as they are. Overwrites `test`, `marks`.
fn narrow(kernel: &mut Kernel, test: &mut LeftRightTest, marks: &mut ConflictMarks) {
    let mut roots = 0u32;
    for _ in 0..MOST_TESTS {
        let count = kernel.edges.count;
        if count < FEW_EDGES || roots > MOST_ROOTS {
            return;
        }
        if !fails_without(kernel, test, marks, NONE) {
            return;
        }
        if kernel.edges.count >= count {
            roots = plus(roots, 1);
            test.search.root = minus(kernel.edges.vertices, roots);
        }
    }
}

/// Removes edges from `kernel`, which is nonplanar, till all are needed to keep it so. Overwrites `test` and `marks`.
pub fn shrink(kernel: &mut Kernel, test: &mut LeftRightTest, marks: &mut ConflictMarks) {
    narrow(kernel, test, marks);
    for _ in 0..MOST_TESTS {
        if kernel.is_least() {
            return;
        }
        let out = kernel.first_loose();
        if out == NONE {
            return;
        }
        if !is_left_out(kernel, test, marks, out) {
            kernel.needed.set(out, 1);
        }
    }
}

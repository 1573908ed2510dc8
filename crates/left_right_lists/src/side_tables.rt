//! Left and right sides of the return edges, in a table by their ends.
ghost use Rattle.std.specs.Prelude.{◌≡◌, ◌<◌, ℕ, Bool, false, length, slice_index_or, IfOk, Contains, MatchOption};
ghost use Rattle.map_theory.specs.Maps.{Dart};
ghost use Rattle.graphs.specs.Graphs.{EdgeGraph};
ghost use Rattle.left_right_lists.specs.Trees.{AreSides};
ghost use Rattle.left_right_lists.specs.Upward.{IsUpward};
ghost use Rattle.left_right_lists.specs.Sides.{dart_place as place_in, side_in, AreOrdered, AreTold};

use crate::return_edges::Upward;
use left_right_sides::sides;
use std::alloc::{AllocError, Global};

// Returns the entry of `sides` at index `place`, or false past its end.
fn side_at(sides: &[bool], place: usize) -> bool
    ensures { result ≡ slice_index_or sides.now place false }
{
    if place < sides.len() {
        sides[place]
    } else {
        false
    }
}

// Returns the index of the edge `d`, from t up to w, in a table of sides: 256 t + w.
fn dart_place(d: (u16, u16)) -> usize
    ensures { result ≡ place_in d }
{
    usize::from(d.0) * 256 + usize::from(d.1)
}

/// Says whether the return edge `d`, from t up to w, is on the left by `sides`, a table with its side at index 256 t + w.
pub(crate) fn is_left(sides: &[bool], d: (u16, u16)) -> bool
    ensures { result ≡ side_in sides.now d.0 d.1 }
{
    side_at(sides, dart_place(d))
}

// Writes to `table`, at the place of each edge of `darts`, its side, which `numbered` has at the edge's index.
fn put_sides(table: &mut [bool], darts: &[(u16, u16)], numbered: &[bool])
    requires ordered { AreOrdered darts.now }
    requires placed { (d : Dart) → Contains darts.now d → place_in d < length table.old }
    ensures long { length table.new ≡ length table.old }
    ensures told { AreTold darts.now numbered.now table.new }
{
    for x in 0..darts.len() {
        let place = dart_place(darts[x]);
        table[place] = side_at(numbered, x);
    }
}

/// Returns a left-right partition of the return edges along the tree of `up`, as a table for [`is_left`], or None where
/// there is none. It fails only when out of memory.
pub(crate) fn sides_of(alloc: Global, up: &Upward) -> Result<Option<Vec<bool>>, AllocError>
    requires { (graph : EdgeGraph) × IsUpward graph up.now }
    ensures { (graph : EdgeGraph) → IsUpward graph up.now → IfOk result (λ found. MatchOption found ((left : ℕ → ℕ → Bool) → ¬ AreSides graph up.now.tree.parents.items up.now.tree.depths.items left) (λ s. AreSides graph up.now.tree.parents.items up.now.tree.depths.items (side_in s.items))) }
{
    let tree = &up.tree;
    let Some(numbered) = sides(alloc, &tree.parents, &tree.depths, &up.darts, &tree.order)? else {
        return Ok(None);
    };
    let mut table = vec![in alloc; false; 65536]?;
    put_sides(&mut table, &up.darts, &numbered);
    Ok(Some(table))
}

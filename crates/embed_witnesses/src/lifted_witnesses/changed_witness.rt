//! Builds the changed witness: its branch vertices and the vertices of its paths.
ghost use Rattle.std.specs.Prelude.{◌≡◌, ◌++◌, ◌∷◌, [], IfOk, OnOk};
ghost use Rattle.embed_witnesses.specs.Changes.{path_in, IsChanged};

use crate::lifted_witnesses::change_kinds::Change;
use crate::lifted_witnesses::changed_vertices::{branch_of, count_of, kind_of, vertex_of_change};
use kuratowski::Witness;
use map_lists::{PathList, VertexId, VertexList};
use std::alloc::{AllocError, Global};

/// Returns the witness `old` with `change` made. It fails only when out of memory.
pub(crate) fn changed(alloc: Global, old: &Witness, change: Change) -> Result<Witness, AllocError>
    ensures { IfOk result (IsChanged change old.now) }
{
    let kind = kind_of(change, old.kind);
    let mut branch = VertexList::new(alloc);
    for j in 0..kind.branch_count() {
        branch.push(VertexId(branch_of(change, &old.branch, j)))?;
    }
    let mut paths = PathList::new(alloc);
    for p in 0..kind.path_count() {
        push_changed(&mut paths, &old.paths, change, p)?;
    }
    Ok(Witness {
        kind,
        branch,
        paths,
    })
}

// Appends to `new` path `p` of the changed witness, made from `paths`, those of the old one.
fn push_changed(
    new: &mut PathList,
    paths: &PathList,
    change: Change,
    p: usize,
) -> Result<(), AllocError>
    ensures { OnOk result (new.new ≡ new.old ++ path_in change paths.now p ∷ []) }
{
    new.open()?;
    new.append(VertexId(vertex_of_change(change, paths, p, 0)))?;
    for i in 0..count_of(change, paths, p) {
        new.append(VertexId(vertex_of_change(change, paths, p, i + 1)))?;
    }
    Ok(())
}

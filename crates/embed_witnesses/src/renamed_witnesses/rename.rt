//! Replaces each vertex of a witness by its entry in a table.
ghost use Rattle.std.specs.Prelude.{◌≡◌, ◌++◌, ◌∷◌, [], map, take, IfOk, OnOk, slice_index_or};
ghost use Rattle.map_lists.specs.declared.ids.VertexId.{VertexId as Vertex};
ghost use Rattle.embed_witnesses.specs.Renamed.{named, renamed_list, IsRenamed};

use kuratowski::Witness;
use map_lists::{PathList, VertexId, VertexList};
use std::alloc::{AllocError, Global};

/// Returns `witness` with each vertex replaced by its entry in `table`, if it has one. Fails only when out of memory.
pub fn renamed(alloc: Global, witness: &Witness, table: &[u16]) -> Result<Witness, AllocError>
    ensures { IfOk result (λ new. IsRenamed (named table.now) witness.now new) }
{
    let mut branch = VertexList::new(alloc);
    for i in 0..witness.branch.len() {
        branch.push(name_of(table, witness.branch.get(i)))?;
    }
    let mut paths = PathList::new(alloc);
    for p in 0..witness.paths.len() {
        push_renamed(&mut paths, witness.paths.list(p), table)?;
    }
    Ok(Witness {
        kind: witness.kind,
        branch,
        paths,
    })
}

// Appends to `paths` the path with the vertices that `table` has for those of `path`.
fn push_renamed(paths: &mut PathList, path: &[VertexId], table: &[u16]) -> Result<(), AllocError>
    ensures { OnOk result (paths.new ≡ paths.old ++ renamed_list (named table.now) path.now ∷ []) }
{
    paths.open()?;
    for i in 0..path.len() {
        paths.append(name_of(table, path[i]))?;
    }
    Ok(())
}

// Returns the vertex that `table` has for `v`, or `v` past its end.
fn name_of(table: &[u16], v: VertexId) -> VertexId
    ensures { result.0 ≡ named table.now v.0 }
{
    let place = usize::from(v.0);
    if place < table.len() {
        VertexId(table[place])
    } else {
        v
    }
}
